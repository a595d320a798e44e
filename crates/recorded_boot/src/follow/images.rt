//! A boot of a plan and its images along an order.
ghost use Rattle.std.specs.Prelude.{◌≡◌, ◌≤◌, ◌-◌, ◌^◌, [], length};
ghost use Rattle.boot_io.specs.Halted.{HaltsAfter};
ghost use Rattle.boot_model.specs.PlanBoard.{board_of};
ghost use Rattle.boot_plan.specs.Range.{IsPlanInRange};
ghost use Rattle.mod_catalog.specs.WellFormed.{IsWellFormed};
ghost use Rattle.store_model.specs.StateFacts.{IsBoard};
ghost use Rattle.recorded_boot.specs.{Named.AreNames, Named.HasNoTwins, Answer.FollowsTo};
ghost use Rattle.recorded_boot.specs.Follow.{FaultsAfter, Follows, FollowsCatalog, IsFaultTold};

use crate::follow::by_order::ByOrder;
use crate::follow::followed::{Followed, follow_boot};
use crate::order::{Names, NamesFault, StartOrder};
use boot_core::whole::roms;
use boot_io::{Halt, Sink};
use boot_laws::boards_are_sound;
use boot_plan::Plan;
use mem_store::MemStore;
use mod_catalog::{Catalog, ImageCause, ImageFault, catalog, catalogues_are_well_formed};
use phys_mem::Rom;
use pi_base::{OutOfMemory, Seq};
use std::alloc::Global;

/// Why a boot could not follow an order.
#[derive(Clone, Copy, Debug, PartialEq, Eq)]
pub enum FollowFault {
    /// The first fault of the images.
    Image(ImageFault),
    /// Two modules of a volume have one name, so a line of the order may not say which of them starts. It is the first such volume.
    Twins {
        /// Its number in the catalogue.
        volume: u32,
    },
    /// A line could not be written. The sink has counted the failure.
    Sink,
    /// Memory ran out.
    Memory,
}

impl From<OutOfMemory> for FollowFault {
    ghost use Rattle.std.specs.Prelude.{◌≡◌};
    ghost use Rattle.recorded_boot.specs.declared.follow.images.FollowFault.TheVariants.{Memory};

    ghost from_gives = { λ _ fault. fault ≡ Memory };

    fn from(_want: OutOfMemory) -> FollowFault {
        FollowFault::Memory
    }
}

/// The first fault of the images, or that memory ran out.
pub(crate) fn fault_of(fault: ImageFault) -> FollowFault
    ensures { IsFaultTold fault result }
{
    if fault.cause == ImageCause::Memory {
        return FollowFault::Memory;
    }
    FollowFault::Image(fault)
}

// A boot along an order over the catalogue of a plan whose volumes are mapped so.
fn follow_over<S: Sink>(
    alloc: Global,
    plan: &Plan,
    by: &ByOrder<'_>,
    roms: Seq<Rom>,
    sink: &mut S,
) -> Result<Followed, Halt>
    requires board { IsBoard (record (board_of plan.now by.now.catalog.now []) { roms = roms }) }
    requires catalog { IsWellFormed by.now.catalog.now }
    requires some { 1 ≤ length by.now.catalog.now.volumes }
    requires apart { HasNoTwins by.now.catalog.now }
    requires names { AreNames by.now.catalog.now (length by.now.catalog.now.modules) by.now.names.now.volumes.items }
    requires few { length by.now.order.now.starts ≤ 2 ^ 32 - 1 }
    ensures row { FollowsTo (record (board_of plan.now by.now.catalog.now []) { roms = roms }) by.now.catalog.now plan.now.fuel
        by.now.order.now (record { old = S.text sink.old; new = S.text sink.new }) result }
    ensures faults { HaltsAfter result (S.faults sink.old) (S.faults sink.new) }
{
    match MemStore::new(alloc, plan.temp, plan.pages, plan.ram, roms) {
        Ok(store) => follow_boot(alloc, by, store, plan.fuel, sink),
        Err(OutOfMemory) => Err(Halt::Memory),
    }
}

// Follows an order over a plan's images, by the names of their catalogue.
fn follow_named<S: Sink>(
    alloc: Global,
    plan: &Plan,
    by: &ByOrder<'_>,
    images: Seq<Seq<u8>>,
    sink: &mut S,
) -> Result<Followed, FollowFault>
    requires board { IsBoard (board_of plan.now by.now.catalog.now images) }
    requires catalog { IsWellFormed by.now.catalog.now }
    requires some { 1 ≤ length by.now.catalog.now.volumes }
    requires apart { HasNoTwins by.now.catalog.now }
    requires names { AreNames by.now.catalog.now (length by.now.catalog.now.modules) by.now.names.now.volumes.items }
    requires few { length by.now.order.now.starts ≤ 2 ^ 32 - 1 }
    ensures row { FollowsCatalog plan.now by.now.catalog.now images by.now.order.now
        (record { old = S.text sink.old; new = S.text sink.new }) result }
    ensures faults { FaultsAfter result (S.faults sink.old) (S.faults sink.new) }
{
    let Ok(roms) = roms(alloc, by.catalog.volumes.as_slice(), images) else {
        return Err(FollowFault::Memory);
    };
    match follow_over(alloc, plan, by, roms, sink) {
        Ok(followed) => Ok(followed),
        Err(Halt::Sink) => Err(FollowFault::Sink),
        Err(Halt::Memory) => Err(FollowFault::Memory),
    }
}

// Follows an order over the catalogue of a plan's images.
fn follow_catalog<S: Sink>(
    alloc: Global,
    plan: &Plan,
    catalog: &Catalog,
    images: Seq<Seq<u8>>,
    order: &StartOrder,
    sink: &mut S,
) -> Result<Followed, FollowFault>
    requires board { IsBoard (board_of plan.now catalog.now images) }
    requires catalog { IsWellFormed catalog.now }
    requires some { 1 ≤ length catalog.now.volumes }
    requires few { length order.now.starts ≤ 2 ^ 32 - 1 }
    ensures row { FollowsCatalog plan.now catalog.now images order.now (record { old = S.text sink.old; new = S.text sink.new }) result }
    ensures faults { FaultsAfter result (S.faults sink.old) (S.faults sink.new) }
{
    match Names::build(alloc, catalog) {
        Ok(names) => {
            let by = ByOrder {
                order,
                catalog,
                names: &names,
            };
            let followed = follow_named(alloc, plan, &by, images, sink);
            drop(names);
            followed
        }
        Err(NamesFault::Twins { volume }) => {
            drop(images);
            Err(FollowFault::Twins { volume })
        }
        Err(NamesFault::Memory) => {
            drop(images);
            Err(FollowFault::Memory)
        }
    }
}

/// Boots a plan and its images in the given order of starts, and prints the boot's lines as they come.
///
/// After the last line of the order no module is named, so the boot continues as the machine itself does, unless the order stops there. If no free boot starts
/// as the order's lines do up to one of them, the boot is left before that start, or ends first. An order leads to one boot (`one_boot`).
///
/// There are as many images as volumes of the plan, and the order has at most 2^32 - 1 starts. The images' first fault comes first, then the first volume with
/// two modules of one name; nothing is then printed.
pub fn follow<S: Sink>(
    alloc: Global,
    plan: &Plan,
    images: Seq<Seq<u8>>,
    order: &StartOrder,
    sink: &mut S,
) -> Result<Followed, FollowFault>
    requires in_range { IsPlanInRange plan.now }
    requires as_many { length images ≡ length plan.now.volumes }
    requires few { length order.now.starts ≤ 2 ^ 32 - 1 }
    ensures row { Follows plan.now images order.now (record { old = S.text sink.old; new = S.text sink.new }) result }
    ensures faults { FaultsAfter result (S.faults sink.old) (S.faults sink.new) }
{
    boards_are_sound();
    catalogues_are_well_formed();
    let catalog = match catalog(alloc, plan, images.as_slice()) {
        Ok(catalog) => catalog,
        Err(fault) => {
            drop(images);
            return Err(fault_of(fault));
        }
    };
    let followed = follow_catalog(alloc, plan, &catalog, images, order, sink);
    drop(catalog);
    followed
}
