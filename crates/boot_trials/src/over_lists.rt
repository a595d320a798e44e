// Boots over the store of plain lists.
ghost use Rattle.std.specs.Prelude.{◌≤◌, [], length};
ghost use Rattle.store_model.specs.StateFacts.{IsBoard};
ghost use Rattle.store_plain.specs.PlainState.{stands_for};
ghost use Rattle.boot_model.specs.PlanBoard.{board_of};
ghost use Rattle.mod_catalog.specs.WellFormed.{IsWellFormed};
ghost use Rattle.boot_core.specs.FirstBoot.{RunsTo};

use boot_core::whole::{Ran, boot_store, roms};
use boot_io::{Halt, Sink};
use boot_plan::Plan;
use mod_catalog::Catalog;
use phys_mem::Rom;
use pi_base::Seq;
use std::alloc::Global;
use store_plain::PlainStore;

// Boots a plan whose volumes are mapped so.
fn boot_board<S: Sink>(
    alloc: Global,
    plan: &Plan,
    catalog: &Catalog,
    roms: Seq<Rom>,
    sink: &mut S,
) -> Result<Ran<PlainStore>, Halt>
    requires board { IsBoard (record (board_of plan.now catalog.now []) { roms = roms }) }
    requires catalog { IsWellFormed catalog.now }
    requires some { 1 ≤ length catalog.now.volumes }
    ensures { RunsTo stands_for (record (board_of plan.now catalog.now []) { roms = roms }) catalog.now plan.now.fuel
        (record { old = S.text sink.old; new = S.text sink.new }) result }
{
    let store = PlainStore::new(alloc, plan.temp, plan.pages, plan.ram, roms);
    boot_store(alloc, store, catalog, plan.fuel, sink)
}

/// Boots a plan whose images have this catalogue, from its first line to its last, over plain lists.
pub fn boot_over_lists<S: Sink>(
    alloc: Global,
    plan: &Plan,
    catalog: &Catalog,
    images: Seq<Seq<u8>>,
    sink: &mut S,
) -> Result<Ran<PlainStore>, Halt>
    requires board { IsBoard (board_of plan.now catalog.now images) }
    requires catalog { IsWellFormed catalog.now }
    requires some { 1 ≤ length catalog.now.volumes }
    ensures { RunsTo stands_for (board_of plan.now catalog.now images) catalog.now plan.now.fuel
        (record { old = S.text sink.old; new = S.text sink.new }) result }
{
    let roms = roms(alloc, catalog.volumes.as_slice(), images)?;
    boot_board(alloc, plan, catalog, roms, sink)
}
