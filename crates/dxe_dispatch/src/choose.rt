// The next driver.
ghost use Rattle.std.specs.Prelude.{◌≤◌, ◌+◌, IfOk, OnOk, IfSome};
ghost use Rattle.boot_model.specs.DxeMachine.{DxeMachine};
ghost use Rattle.mod_catalog.specs.WellFormed.{IsWellFormed};
ghost use Rattle.dxe_dispatch.specs.Queue.{IsDriver, IsQueueFor, owed};
ghost use Rattle.dxe_dispatch.specs.Turns.{AreKeptFor, Chooses};

use crate::DriverQueue;
use boot_model::Scheduled;
use depex_code::Steps;
use dxe_core::Dxe;
use mod_catalog::Catalog;
use pi_base::OutOfMemory;
use std::sync::ledger::Ledger;

/// The next driver over what the core keeps, which leaves the queue. None where no driver may start.
pub(crate) fn choose<L: Ledger>(
    dxe: &Dxe,
    queue: &mut DriverQueue,
    catalog: &Catalog,
    steps: &mut Steps<L>,
) -> Result<Option<Scheduled>, OutOfMemory>
    requires catalog { IsWellFormed catalog.now }
    requires made { IsQueueFor catalog.now queue.old }
    requires state { (m : DxeMachine) × AreKeptFor catalog.now dxe.now queue.old m }
    ensures row { Chooses catalog.now dxe.now queue.old queue.new result }
    ensures driver { IfOk result (λ next. IfSome next (IsDriver catalog.now)) }
    ensures made { OnOk result (IsQueueFor catalog.now queue.new) }
    ensures few_steps { steps.new ≤ steps.old + owed queue.old }
    ensures owes { OnOk result (steps.new + owed queue.new ≤ steps.old + owed queue.old) }
{
    queue.next(catalog, dxe.order(), steps)
}
