// What a step of DXE tells.
ghost use Rattle.std.specs.Prelude.{◌≡◌, ◌++◌, OnOk, option_to_list};
ghost use Rattle.boot_model.specs.DxeMachine.{DxeMachine};
ghost use Rattle.dxe_core.specs.{Order.IsOrderOf, Standing.IsCoreOf};
ghost use Rattle.store_model.specs.HandleState.{has_protocol};
ghost use Rattle.boot_reasons.specs.{DxeReasons.beside_by, DxeReasons.dxe_begun_at, DxeTelling.Tells, Noting.AreNoted, Noting.giver_in};

use crate::givers::Givers;
use crate::needs::needs_of;
use crate::told::DxeTold;
use boot_model::{Licence, Scheduled};
use dxe_core::{DriverOrder, Dxe};
use dxe_dispatch::{Step, target_of};
use explain_text::{Begun, Giver};
use mod_catalog::Catalog;
use phase_parts::part_of;
use pi_base::{Guid, OutOfMemory, Phase};

// Tells of an event whether its protocol came or went.
fn tell_change(
    givers: &mut Givers,
    dxe: &Dxe,
    changed: Option<Guid>,
    actor: Giver,
) -> Result<(), OutOfMemory>
    ensures { OnOk result (AreNoted (has_protocol dxe.now.services.handles) actor (option_to_list changed) givers.old.map givers.new.map) }
{
    match changed {
        Some(guid) => givers.note(&guid, dxe.handles(), actor),
        None => Ok(()),
    }
}

// The driver beside which a companion starts.
fn beside(catalog: &Catalog, order: &DriverOrder, next: &Scheduled) -> Option<u32>
    ensures { (m : DxeMachine) → IsOrderOf catalog.now m.discovered order.now
        → result ≡ beside_by catalog.now m next.now.module_number next.now.licence }
{
    match next.licence {
        Licence::Before | Licence::After => target_of(catalog, order, next.module_number),
        _ => None,
    }
}

// Tells of the start of a driver, which leaves the protocols as they are.
fn tell_start(
    told: &mut DxeTold,
    dxe: &Dxe,
    catalog: &Catalog,
    next: &Scheduled,
) -> Result<(), OutOfMemory>
    ensures begun { OnOk result ((m : DxeMachine) → IsCoreOf catalog.now dxe.now m
        → told.new.begun ≡ told.old.begun ++ dxe_begun_at catalog.now m (giver_in told.old.givers.map) next.now) }
    ensures givers { told.new.givers ≡ told.old.givers }
{
    let part = match part_of(catalog, Phase::Dxe, next.module_number) {
        Some(part) => part,
        None => return Ok(()),
    };
    let needs = needs_of(told.begun.alloc(), &told.givers, Phase::Dxe, part)?;
    told.begun.push(Begun {
        number: next.module_number,
        phase: Phase::Dxe,
        licence: next.licence,
        beside: beside(catalog, dxe.order(), next),
        needs,
    })
}

/// Tells of a step that an actor made, behind which the core is so.
pub(crate) fn tell(
    told: &mut DxeTold,
    dxe: &Dxe,
    catalog: &Catalog,
    step: &Step,
    actor: Giver,
) -> Result<(), OutOfMemory>
    ensures { OnOk result (Tells catalog.now dxe.now actor step.now told.old told.new) }
{
    match step {
        Step::Acted(event) => tell_change(&mut told.givers, dxe, event.changed, actor),
        Step::Started(next) => tell_start(told, dxe, catalog, next),
    }
}
