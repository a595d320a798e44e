//! The boot of the machine itself: the first module that may start does.
ghost use Rattle.std.specs.Prelude.{◌≤◌, IfErr, length};
ghost use Rattle.boot_io.specs.Halted.{HaltsAfter};
ghost use Rattle.mod_catalog.specs.WellFormed.{IsWellFormed};
ghost use Rattle.store_model.specs.StoreState.{Board, empty_store};
ghost use Rattle.boot_core.specs.FirstBoot.{RunsTo, WantsOutsidePei};

use crate::whole::boot::{Booted, Ran, boot_by_choice};
use crate::whole::watch::nobody;
use boot_io::{Halt, Sink};
use boot_laws::{FirstEligible, dxe_runs_end, pei_runs_end};
use mod_catalog::Catalog;
use std::alloc::Global;
use store_model::PeiStore;

/// A boot from its first line to its last, where the first module that may start does: PEI, DXE behind a hand-off, the lists, the handles and the result.
pub fn boot_store<M: PeiStore + Drop, S: Sink>(
    alloc: Global,
    store: M,
    catalog: &Catalog,
    fuel: u32,
    sink: &mut S,
) -> Result<Ran<M>, Halt>
    requires catalog { IsWellFormed catalog.now }
    requires some { 1 ≤ length catalog.now.volumes }
    requires opening { (board : Board) × M.stands_for store (empty_store board) }
    ensures row { (board : Board) → M.stands_for store (empty_store board)
        → RunsTo M.stands_for board catalog.now fuel (record { old = S.text sink.old; new = S.text sink.new }) result }
    ensures memory { (board : Board) → M.stands_for store (empty_store board)
        → IfErr result (WantsOutsidePei M.TAKES_MEMORY board catalog.now fuel (record { old = S.text sink.old; new = S.text sink.new })) }
    ensures faults { HaltsAfter result (S.faults sink.old) (S.faults sink.new) }
{
    pei_runs_end();
    dxe_runs_end();
    let mut watch = nobody();
    match boot_by_choice(
        alloc,
        store,
        catalog,
        fuel,
        &FirstEligible,
        &mut watch,
        sink,
    )? {
        Booted::Ended(ran) => Ok(ran),
        Booted::BarredInPei(_) | Booted::BarredInDxe { .. } => unreachable!(),
    }
}
