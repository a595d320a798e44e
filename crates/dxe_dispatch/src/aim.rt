// The driver that a choice names, and the machine that is aimed at it.
ghost use Rattle.std.specs.Prelude.{◌≡◌, ◌↔◌, ◌≤◌, ◌+◌, [], IsTrue, OnOk};
ghost use Rattle.boot_model.specs.DxeMachine.{DxeMachine};
ghost use Rattle.mod_catalog.specs.{declared.catalogue.Catalog.Catalog as OfCatalog, WellFormed.IsWellFormed};
ghost use Rattle.dxe_dispatch.specs.{Queue.IsQueueFor, Queue.owed, Choices.Aims, Choices.Asks, Turns.AreKeptFor};

use crate::DriverQueue;
use crate::root::root_of;
use boot_laws::{Before, Choice};
use depex_code::Steps;
use dxe_core::Dxe;
use mod_catalog::Catalog;
use pi_base::OutOfMemory;
use std::sync::ledger::Ledger;

// Whether a driver is to be chosen: no script runs, and nothing is scheduled.
fn is_choice(dxe: &Dxe, queue: &DriverQueue) -> bool
    ensures { IsTrue result ↔ ((dxe.now.frames ≡ []) × (queue.now.scheduled ≡ [])) }
{
    dxe.is_idle() && queue.is_empty()
}

/// The driver that is named, where one is to be chosen. The choice is told `before`.
pub(crate) fn named<S, C: Choice<S>>(
    dxe: &Dxe,
    queue: &DriverQueue,
    choice: &C,
    before: Before,
    sink: &S,
) -> Option<u32>
    ensures { (catalog : OfCatalog) → Asks ((C.rules choice.now).drivers sink.now before) catalog dxe.now queue.now result }
{
    if is_choice(dxe, queue) {
        choice.driver(sink, before)
    } else {
        None
    }
}

/// The group is scheduled of the driver to which BEFORE and AFTER lead from the one that is named, where it waits and may start.
pub(crate) fn aim<L: Ledger>(
    dxe: &Dxe,
    queue: &mut DriverQueue,
    catalog: &Catalog,
    named: Option<u32>,
    steps: &mut Steps<L>,
) -> Result<(), OutOfMemory>
    requires catalog { IsWellFormed catalog.now }
    requires made { IsQueueFor catalog.now queue.old }
    requires state { (m : DxeMachine) × AreKeptFor catalog.now dxe.now queue.old m }
    ensures row { OnOk result (Aims catalog.now dxe.now queue.old named queue.new) }
    ensures made { OnOk result (IsQueueFor catalog.now queue.new) }
    ensures few_steps { steps.new ≤ steps.old + owed queue.old }
    ensures owes { OnOk result (steps.new + owed queue.new ≤ steps.old + owed queue.old) }
{
    match named {
        Some(number) => {
            let root = root_of(catalog, dxe.order(), number);
            queue.aim(catalog, dxe.order(), root, steps)
        }
        None => Ok(()),
    }
}
