// The drivers that wait at the end of DXE.
ghost use Rattle.std.specs.Prelude.{◌≡◌, IfOk, option_to_list};
ghost use Rattle.boot_model.specs.{DxeChoice.is_waiting, DxeMachine.DxeMachine};
ghost use Rattle.dxe_dispatch.specs.Queue.{IsQueueOf};
ghost use Rattle.dxe_core.specs.Standing.{IsCoreOf};
ghost use Rattle.boot_reasons.specs.{DxeReasons.dxe_held, DxeReasons.dxe_held_at, DxeTelling.held_where, Noting.giver_in};

use crate::givers::Givers;
use crate::needs::needs_of;
use crate::waiters::push_held;
use dxe_core::{Dxe, is_requested};
use dxe_dispatch::{DriverQueue, reason_of};
use explain_text::{Held, change_for};
use mod_catalog::Catalog;
use phase_parts::part_of;
use pi_base::{OutOfMemory, Phase, Seq};
use std::alloc::Global;

// A driver, if it waits.
fn held_of(
    alloc: Global,
    dxe: &Dxe,
    queue: &DriverQueue,
    catalog: &Catalog,
    givers: &Givers,
    number: u32,
) -> Result<Option<Held>, OutOfMemory>
    ensures { (m : DxeMachine) → IsCoreOf catalog.now dxe.now m → IsQueueOf catalog.now m queue.now
        → IfOk result (λ held. option_to_list held
        ≡ held_where (is_waiting m number) (dxe_held_at catalog.now m (giver_in givers.now.map) number)) }
{
    if !queue.is_waiting(number) {
        return Ok(None);
    }
    let part = match part_of(catalog, Phase::Dxe, number) {
        Some(part) => part,
        None => return Ok(None),
    };
    let requested = is_requested(dxe.requested(), number);
    let needs = needs_of(alloc, givers, Phase::Dxe, part)?;
    let Ok(change) = change_for(alloc, dxe.handles(), Phase::Dxe, &part.expr) else {
        drop(needs);
        return Err(OutOfMemory);
    };
    Ok(Some(Held {
        number,
        phase: Phase::Dxe,
        reason: reason_of(catalog, number, requested),
        needs,
        change,
    }))
}

/// Those of the discovered drivers that wait.
pub(crate) fn held_drivers(
    alloc: Global,
    dxe: &Dxe,
    queue: &DriverQueue,
    catalog: &Catalog,
    givers: &Givers,
) -> Result<Seq<Held>, OutOfMemory>
    ensures { (m : DxeMachine) → IsCoreOf catalog.now dxe.now m → IsQueueOf catalog.now m queue.now
        → IfOk result (λ held. held ≡ dxe_held catalog.now m (giver_in givers.now.map)) }
{
    let mut held = Seq::new(alloc);
    let mut rest = dxe.order().drivers();
    'drivers: while let [number, after @ ..] = rest {
        let driver = held_of(alloc, dxe, queue, catalog, givers, *number)?;
        push_held(&mut held, driver)?;
        rest = after;
    }
    Ok(held)
}
