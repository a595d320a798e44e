//! What PEI hands on in the boot in the order of EDK2's dispatchers.
ghost use Rattle.std.specs.Prelude.{◌≡◌, ◌≤◌, IfErr, IfOk, length};
ghost use Rattle.boot_core.specs.Examining.{AreRefused};
ghost use Rattle.boot_model.specs.PlanBoard.{board_of};
ghost use Rattle.boot_plan.specs.Range.{IsPlanInRange};
ghost use Rattle.mod_catalog.specs.WellFormed.{IsWellFormed};
ghost use Rattle.store_model.specs.{Service.Present, StateFacts.IsBoard, StoreCall.Anything};
ghost use Rattle.store_model.specs.StoreState.{Board, empty_store};
ghost use Rattle.recorded_boot.specs.{Leaving.store_of, Passes.IsNotLeftInPei};
ghost use Rattle.recorded_boot.specs.HandOff.{HandsOnInTurns, IsHandOffInTurns, LeavesHandOff, OneHandOff};

use crate::passes::InTurns;
use boot_core::plan_files::NoJob;
use boot_core::whole::{Booted, boot_by_choice, nobody};
use boot_core::{HandOff, Nowhere, examine, handed_by, store_of};
use boot_io::Halt;
use boot_laws::{cursor_aims, order_is_of_modules};
use boot_plan::Plan;
use mod_catalog::Catalog;
use pi_base::{OutOfMemory, Seq};
use std::alloc::Global;
use store_model::PeiStore;

// What the PEI of a boot handed on.
fn handed_in<M: PeiStore + Drop>(alloc: Global, booted: &Booted<M>) -> Result<HandOff, OutOfMemory>
    requires state { Present (M.stands_for (store_of booted.now)) Anything }
    requires behind_pei { IsNotLeftInPei booted.now }
    ensures { IfOk result (LeavesHandOff M.stands_for booted.now) }
{
    match booted {
        Booted::Ended(ran) => handed_by(alloc, ran.pei.end, &ran.pei.store),
        Booted::BarredInPei(_) => unreachable!(),
        Booted::BarredInDxe { pei, .. } => handed_by(alloc, pei.end, &pei.store),
    }
}

// What PEI hands on over a store that is as it was made.
fn hand_on<M: PeiStore + Drop>(
    alloc: Global,
    store: M,
    catalog: &Catalog,
    fuel: u32,
) -> Result<HandOff, OutOfMemory>
    requires catalog { IsWellFormed catalog.now }
    requires some { 1 ≤ length catalog.now.volumes }
    requires opening { (board : Board) × M.stands_for store (empty_store board) }
    ensures { (board : Board) → M.stands_for store (empty_store board) → IfOk result (HandsOnInTurns board catalog.now fuel) }
{
    cursor_aims();
    let mut watch = nobody();
    match boot_by_choice(
        alloc,
        store,
        catalog,
        fuel,
        &InTurns,
        &mut watch,
        &mut Nowhere,
    ) {
        Ok(booted) => {
            let handed = handed_in(alloc, &booted);
            drop(booted);
            handed
        }
        Err(Halt::Sink) => unreachable!(),
        Err(Halt::Memory) => Err(OutOfMemory),
    }
}

// What PEI hands on over a catalogue of the images.
fn hand_on_over(
    alloc: Global,
    plan: &Plan,
    catalog: &Catalog,
    images: Seq<Seq<u8>>,
) -> Result<HandOff, OutOfMemory>
    requires board { IsBoard (board_of plan.now catalog.now images) }
    requires catalog { IsWellFormed catalog.now }
    requires some { 1 ≤ length catalog.now.volumes }
    ensures { IfOk result (HandsOnInTurns (board_of plan.now catalog.now images) catalog.now plan.now.fuel) }
{
    let store = store_of(alloc, plan, catalog, images)?;
    hand_on(alloc, store, catalog, plan.fuel)
}

/// What PEI hands to DXE in the boot of a plan and its images in the order of EDK2's dispatchers: the HOB list, or the result of a boot that ends in PEI.
/// Nothing is put.
///
/// There are as many images as volumes of the plan. The images' first fault is refused. PI 1.8, volume 1, "PEI Dispatcher", and volume 3, "HOB List".
pub fn hand_off_in_turns(alloc: Global, plan: &Plan, images: Seq<Seq<u8>>) -> Result<HandOff, NoJob>
    requires in_range { IsPlanInRange plan.now }
    requires as_many { length images ≡ length plan.now.volumes }
    ensures handed { IfOk result (IsHandOffInTurns plan.now images) }
    ensures refused { IfErr result (AreRefused plan.now images) }
{
    let catalog = examine(alloc, plan, images.as_slice())?;
    let handed = hand_on_over(alloc, plan, &catalog, images);
    drop(catalog);
    Ok(handed?)
}

/// PEI hands one thing on in that order: two hand-offs of a catalogue are the same.
pub fn one_hand_off()
    ensures { OneHandOff }
{
    cursor_aims();
    order_is_of_modules();
}
