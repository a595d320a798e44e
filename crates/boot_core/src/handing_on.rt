// What PEI hands on in the boot of a plan's images.
ghost use Rattle.std.specs.Prelude.{◌≡◌, ◌≤◌, IfOk, IfErr, length};
ghost use Rattle.boot_model.specs.{PeiRun.pei_end, PlanBoard.board_of};
ghost use Rattle.boot_plan.specs.Range.{IsPlanInRange};
ghost use Rattle.mod_catalog.specs.WellFormed.{IsWellFormed};
ghost use Rattle.store_model.specs.{StateFacts.IsBoard, StoreState.Board, StoreState.empty_store};
ghost use Rattle.boot_core.specs.{Examining.AreRefused, HandOff.HandsOn, HandOff.IsHandOff};

use crate::images::examine;
use crate::keeper::{Keeper, NoDriver};
use crate::nowhere::Nowhere;
use crate::plan_boot::store_of;
use crate::plan_files::NoJob;
use crate::whole::{Watch, boot_by_choice};
use boot_io::Halt;
use boot_laws::pei_runs_end;
use boot_model::RunEnd;
use boot_plan::Plan;
use dxe_dispatch::Unwatched;
use mod_catalog::Catalog;
use pi_base::{OutOfMemory, Seq};
use std::alloc::Global;
use store_model::PeiStore;

/// What PEI leaves at its end.
#[derive(Drop)]
pub enum HandOff {
    /// The bytes of the HOB list that it hands to DXE, from the hand-off HOB to the end HOB.
    Hobs(Seq<u8>),
    /// The result of a boot that ended in PEI.
    Ended(RunEnd),
}

// PEI over a store that is as it was made: the boot up to its first driver, of which is kept what PEI hands on.
fn run_pei_on<M: PeiStore + Drop>(
    alloc: Global,
    store: M,
    catalog: &Catalog,
    fuel: u32,
) -> Result<HandOff, OutOfMemory>
    requires catalog { IsWellFormed catalog.now }
    requires some { 1 ≤ length catalog.now.volumes }
    requires opening { (board : Board) × M.stands_for store (empty_store board) }
    ensures { (board : Board) → M.stands_for store (empty_store board) → IfOk result (HandsOn (pei_end board catalog.now fuel)) }
{
    pei_runs_end();
    let mut watch = Watch {
        pei: Keeper::new(alloc),
        dxe: Unwatched,
    };
    match boot_by_choice(
        alloc,
        store,
        catalog,
        fuel,
        &NoDriver,
        &mut watch,
        &mut Nowhere,
    ) {
        Ok(booted) => {
            drop(booted);
            watch.pei.into_kept()
        }
        Err(Halt::Sink) => unreachable!(),
        Err(Halt::Memory) => Err(OutOfMemory),
    }
}

// PEI over a catalogue of the images.
fn run_pei(
    alloc: Global,
    plan: &Plan,
    catalog: &Catalog,
    images: Seq<Seq<u8>>,
) -> Result<HandOff, OutOfMemory>
    requires board { IsBoard (board_of plan.now catalog.now images) }
    requires catalog { IsWellFormed catalog.now }
    requires some { 1 ≤ length catalog.now.volumes }
    ensures { IfOk result (HandsOn (pei_end (board_of plan.now catalog.now images) catalog.now plan.now.fuel)) }
{
    let store = store_of(alloc, plan, catalog, images)?;
    run_pei_on(alloc, store, catalog, plan.fuel)
}

/// What PEI hands to DXE in the boot of a plan and its images: the HOB list, or the result of a boot that ends in PEI. Nothing is put.
/// There are as many images as volumes of the plan.
pub fn hand_off(alloc: Global, plan: &Plan, images: Seq<Seq<u8>>) -> Result<HandOff, NoJob>
    requires in_range { IsPlanInRange plan.now }
    requires as_many { length images ≡ length plan.now.volumes }
    ensures handed { IfOk result (IsHandOff plan.now images) }
    ensures refused { IfErr result (AreRefused plan.now images) }
{
    let catalog = examine(alloc, plan, images.as_slice())?;
    let handed = run_pei(alloc, plan, &catalog, images);
    drop(catalog);
    Ok(handed?)
}
