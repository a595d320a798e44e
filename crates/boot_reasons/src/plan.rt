//! The boot of a plan, explained.
ghost use Rattle.std.specs.Prelude.{◌≤◌, [], IfOk, length};
ghost use Rattle.boot_model.specs.PlanBoard.{board_of};
ghost use Rattle.mod_catalog.specs.WellFormed.{IsWellFormed};
ghost use Rattle.store_model.specs.StateFacts.{IsBoard};
ghost use Rattle.boot_reasons.specs.{Explained.ExplainsTo, Explained.IsExplained, Unseen.choices_of};

use crate::explain::explain_by;
use crate::nowhere::Nowhere;
use boot_core::whole::roms;
use boot_laws::{Choice, FirstEligible, Reached};
use boot_plan::Plan;
use explain_text::Explained;
use mem_store::MemStore;
use mod_catalog::Catalog;
use phys_mem::Rom;
use pi_base::{OutOfMemory, Seq};
use std::alloc::Global;

// The boot of a plan by a choice, whose volumes are mapped so.
fn explain_over<C: Choice<Nowhere>>(
    alloc: Global,
    plan: &Plan,
    catalog: &Catalog,
    roms: Seq<Rom>,
    choice: &C,
) -> Result<Reached<Explained>, OutOfMemory>
    requires board { IsBoard (record (board_of plan.now catalog.now []) { roms = roms }) }
    requires catalog { IsWellFormed catalog.now }
    requires some { 1 ≤ length catalog.now.volumes }
    ensures { IfOk result (ExplainsTo (choices_of (C.rules choice.now) catalog.now plan.now.fuel)
        (record (board_of plan.now catalog.now []) { roms = roms }) catalog.now plan.now.fuel) }
{
    match MemStore::new(alloc, plan.temp, plan.pages, plan.ram, roms) {
        Ok(store) => explain_by(alloc, store, catalog, plan.fuel, choice),
        Err(OutOfMemory) => Err(OutOfMemory),
    }
}

/// Explains the boot of a plan by a choice, over the catalogue of its images, or tells before which start it is left. No image is copied.
pub fn explain_plan_by<C: Choice<Nowhere>>(
    alloc: Global,
    plan: &Plan,
    catalog: &Catalog,
    images: Seq<Seq<u8>>,
    choice: &C,
) -> Result<Reached<Explained>, OutOfMemory>
    requires board { IsBoard (board_of plan.now catalog.now images) }
    requires catalog { IsWellFormed catalog.now }
    requires some { 1 ≤ length catalog.now.volumes }
    ensures { IfOk result (ExplainsTo (choices_of (C.rules choice.now) catalog.now plan.now.fuel)
        (board_of plan.now catalog.now images) catalog.now plan.now.fuel) }
{
    let roms = roms(alloc, catalog.volumes.as_slice(), images)?;
    explain_over(alloc, plan, catalog, roms, choice)
}

/// Explains the boot of a plan where the first module that may start does, over the catalogue of its images. No image is copied.
pub fn explain_plan(
    alloc: Global,
    plan: &Plan,
    catalog: &Catalog,
    images: Seq<Seq<u8>>,
) -> Result<Explained, OutOfMemory>
    requires board { IsBoard (board_of plan.now catalog.now images) }
    requires catalog { IsWellFormed catalog.now }
    requires some { 1 ≤ length catalog.now.volumes }
    ensures { IfOk result (IsExplained (board_of plan.now catalog.now images) catalog.now plan.now.fuel) }
{
    match explain_plan_by(alloc, plan, catalog, images, &FirstEligible)? {
        Reached::End(explained) => Ok(explained),
        Reached::Barred(_) => unreachable!(),
    }
}
