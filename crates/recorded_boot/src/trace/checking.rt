//! The check of a text.
ghost use Rattle.std.specs.Prelude.{◌≡◌, ◌≤◌, [], IfOk, length};
ghost use Rattle.boot_model.specs.{FreeRun.AreFreeLines, PlanBoard.board_of};
ghost use Rattle.boot_plan.specs.Range.{IsPlanInRange};
ghost use Rattle.mod_catalog.specs.WellFormed.{IsWellFormed};
ghost use Rattle.store_model.specs.{StateFacts.IsBoard, StoreState.Board, StoreState.empty_store};
ghost use Rattle.recorded_boot.specs.{Named.AreNames, Named.HasNoTwins, Verdict.IsVerdict};
ghost use Rattle.recorded_boot.specs.Checking.{Checks, ChecksCatalog, IsFaultTold};

use crate::order::{Names, NamesFault};
use crate::trace::Spelled;
use crate::trace::following::follow_boot;
use crate::trace::verdict::{Verdict, verdict_of};
use boot_core::whole::roms;
use boot_laws::boards_are_sound;
use boot_plan::Plan;
use mem_store::MemStore;
use mod_catalog::{Catalog, ImageCause, ImageFault, catalog, catalogues_are_well_formed};
use phys_mem::Rom;
use pi_base::{OutOfMemory, Seq};
use std::alloc::Global;
use store_model::PeiStore;

/// Why a text could not be checked.
#[derive(Clone, Copy, Debug, PartialEq, Eq)]
pub enum CheckFault {
    /// The first fault of the images.
    Image(ImageFault),
    /// Two modules of a volume have one name, so a start line may not say which of them starts. It is the first such volume.
    Twins {
        /// Its number in the catalogue.
        volume: u32,
    },
    /// Memory ran out.
    Memory,
}

impl From<OutOfMemory> for CheckFault {
    ghost use Rattle.std.specs.Prelude.{◌≡◌};
    ghost use Rattle.recorded_boot.specs.declared.trace.checking.CheckFault.TheVariants.{Memory};

    ghost from_gives = { λ _ fault. fault ≡ Memory };

    fn from(_want: OutOfMemory) -> CheckFault {
        CheckFault::Memory
    }
}

// The first fault of the images, or that memory ran out.
fn fault_of(fault: ImageFault) -> CheckFault
    ensures { IsFaultTold fault result }
{
    if fault.cause == ImageCause::Memory {
        return CheckFault::Memory;
    }
    CheckFault::Image(fault)
}

// The verdict on a text over a store that is as it was made.
fn verdict_from<M: PeiStore + Drop>(
    alloc: Global,
    store: M,
    catalog: &Catalog,
    names: &Names,
    fuel: u32,
    text: &[u8],
) -> Result<Verdict, OutOfMemory>
    requires catalog { IsWellFormed catalog.now }
    requires some { 1 ≤ length catalog.now.volumes }
    requires apart { HasNoTwins catalog.now }
    requires names { AreNames catalog.now (length catalog.now.modules) names.now.volumes.items }
    requires text { length text.now ≤ 0x4000000 }
    requires opening { (board : Board) × M.stands_for store (empty_store board) }
    ensures { (board : Board) → M.stands_for store (empty_store board)
        → IfOk result (IsVerdict (AreFreeLines board catalog.now fuel) text.now) }
{
    let mut spelled = Spelled::new(text);
    let followed = follow_boot(alloc, store, catalog, names, fuel, &mut spelled);
    verdict_of(followed, &spelled)
}

// The verdict on a text over the catalogue of a plan whose volumes are mapped so.
fn verdict_over(
    alloc: Global,
    plan: &Plan,
    catalog: &Catalog,
    names: &Names,
    roms: Seq<Rom>,
    text: &[u8],
) -> Result<Verdict, OutOfMemory>
    requires board { IsBoard (record (board_of plan.now catalog.now []) { roms = roms }) }
    requires catalog { IsWellFormed catalog.now }
    requires some { 1 ≤ length catalog.now.volumes }
    requires apart { HasNoTwins catalog.now }
    requires names { AreNames catalog.now (length catalog.now.modules) names.now.volumes.items }
    requires text { length text.now ≤ 0x4000000 }
    ensures { IfOk result
        (IsVerdict (AreFreeLines (record (board_of plan.now catalog.now []) { roms = roms }) catalog.now plan.now.fuel) text.now) }
{
    match MemStore::new(alloc, plan.temp, plan.pages, plan.ram, roms) {
        Ok(store) => verdict_from(alloc, store, catalog, names, plan.fuel, text),
        Err(OutOfMemory) => Err(OutOfMemory),
    }
}

// The check of a text over the catalogue of a plan's images.
fn check_catalog(
    alloc: Global,
    plan: &Plan,
    catalog: &Catalog,
    images: Seq<Seq<u8>>,
    text: &[u8],
) -> Result<Verdict, CheckFault>
    requires board { IsBoard (board_of plan.now catalog.now images) }
    requires catalog { IsWellFormed catalog.now }
    requires some { 1 ≤ length catalog.now.volumes }
    requires text { length text.now ≤ 0x4000000 }
    ensures { ChecksCatalog plan.now catalog.now images text.now result }
{
    let names = match Names::build(alloc, catalog) {
        Ok(names) => names,
        Err(NamesFault::Twins { volume }) => return Err(CheckFault::Twins { volume }),
        Err(NamesFault::Memory) => return Err(CheckFault::Memory),
    };
    let roms = roms(alloc, catalog.volumes.as_slice(), images)?;
    Ok(verdict_over(alloc, plan, catalog, &names, roms, text)?)
}

/// Checks whether a text is the trace of a boot of a plan and its images in which the dispatchers chose freely: any eligible PEIM in the place of the first,
/// and any eligible driver with its group. There are as many images as volumes of the plan, and the text has at most 64 MiB. The images' first fault comes
/// first, then the first volume with two modules of one name.
pub fn check(
    alloc: Global,
    plan: &Plan,
    images: Seq<Seq<u8>>,
    text: &[u8],
) -> Result<Verdict, CheckFault>
    requires in_range { IsPlanInRange plan.now }
    requires as_many { length images ≡ length plan.now.volumes }
    requires text { length text.now ≤ 0x4000000 }
    ensures { Checks plan.now images text.now result }
{
    boards_are_sound();
    catalogues_are_well_formed();
    let catalog = match catalog(alloc, plan, images.as_slice()) {
        Ok(catalog) => catalog,
        Err(fault) => return Err(fault_of(fault)),
    };
    check_catalog(alloc, plan, &catalog, images, text)
}
