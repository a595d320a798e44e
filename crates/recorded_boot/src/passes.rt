//! A boot in the order of EDK2's dispatchers (2022.11): the module whose turn it is starts, and no other. The order is a definition, `in_turn` for PEI and
//! `turn_in` for DXE.
ghost use Rattle.std.specs.Prelude.{◌≡◌, ◌≤◌, IfOk, length};
ghost use Rattle.boot_io.specs.Halted.{HaltsAfter};
ghost use Rattle.boot_model.specs.{PlanBoard.board_of, DxeChoice.is_that};
ghost use Rattle.boot_plan.specs.Range.{IsPlanInRange};
ghost use Rattle.mod_catalog.specs.WellFormed.{IsWellFormed};
ghost use Rattle.pi_base.specs.declared.phase.Phase.TheVariants.{Dxe};
ghost use Rattle.store_model.specs.{Service.Present, Service.OfEach, StateFacts.IsBoard, StoreCall.Anything};
ghost use Rattle.store_model.specs.StoreState.{Board, empty_store};
ghost use Rattle.recorded_boot.specs.{Follow.FaultsAfter, Leaving.store_of, OnePass.OnePass, Starts.module_start};
ghost use Rattle.recorded_boot.specs.Passes.{IsNotLeftInPei, IsTurnOf, LeavesBoot, Passes, PassesOver, PassesTo, is_short, lacks_in};

use crate::follow::{FollowFault, Installed, fault_of, lacking};
use crate::order::Start;
use boot_core::store_of;
use boot_core::whole::{Booted, boot_by_choice, choices_are_free, nobody};
use boot_io::{Halt, Sink};
use boot_laws::{Before, Choice, boards_are_sound, cursor_aims, order_is_of_modules};
use boot_model::RunEnd;
use boot_plan::Plan;
use mod_catalog::{Catalog, catalog, catalogues_are_well_formed};
use phase_parts::{name_of, part_of, volume_of};
use pi_base::{Guid, OutOfMemory, Phase, Seq};
use std::alloc::Global;
use store_model::PeiStore;

/// The choice of EDK2's dispatchers: the module whose turn it is starts, and no other.
#[derive(Clone, Copy)]
pub struct InTurns;

// Whether it is the turn of this module.
fn is_turn_of(before: Before, number: u32) -> bool
    ensures { result ≡ is_that number before.turn }
{
    match before.turn {
        Some(turn) => turn == number,
        None => false,
    }
}

impl<S> Choice<S> for InTurns {
    ghost use Rattle.recorded_boot.specs.Passes.{turn_rules};

    ghost rules = { λ choice. turn_rules };

    fn wants_turn(&self) -> bool {
        true
    }

    fn peim(&self, _sink: &S, before: Before) -> Option<u32> {
        before.turn
    }

    fn driver(&self, _sink: &S, before: Before) -> Option<u32> {
        before.turn
    }

    fn lets_peim(&self, before: Before, number: u32) -> bool {
        is_turn_of(before, number)
    }

    fn lets_driver(&self, before: Before, number: u32) -> bool {
        is_turn_of(before, number)
    }
}

/// The driver whose turn it is where the boot in EDK2's order goes no further.
#[derive(Drop)]
pub struct Turn {
    /// The driver. None where it is nobody's turn, and the rules would have another driver start.
    pub start: Option<Start>,
    /// The GUIDs that its dependency expression pushes and that are not installed, once each, in the order in which it first mentions them.
    pub lacks: Seq<Guid>,
}

/// How a boot in the order of EDK2's dispatchers ends.
#[derive(Drop)]
pub enum Passed {
    /// Its end with this result: it is nobody's turn any more, or fuel or room is wanting.
    Ended(RunEnd),
    /// The driver whose turn it is may not start there: its expression held when it was scheduled, and does not any more, or a driver of a new volume's a priori file comes first.
    No(Turn),
}

// The GUIDs that a driver lacks, where one is given.
fn lacks_of<M: PeiStore>(
    alloc: Global,
    catalog: &Catalog,
    installed: &Installed<'_, M>,
    number: Option<u32>,
) -> Result<Seq<Guid>, OutOfMemory>
    requires state { Present (M.stands_for installed.now.store.now) Anything }
    ensures { OfEach (M.stands_for installed.now.store.now) Anything
        (λ s. IfOk result (λ lacks. lacks ≡ lacks_in catalog.now s installed.now.handles.now number)) }
{
    let Some(number) = number else {
        return Ok(Seq::new(alloc));
    };
    match part_of(catalog, Phase::Dxe, number) {
        Some(part) => lacking(alloc, installed, Phase::Dxe, &part.expr),
        None => Ok(Seq::new(alloc)),
    }
}

// The start of a driver.
fn start_of(catalog: &Catalog, number: u32) -> Start
    ensures { result ≡ module_start Dxe catalog.now number }
{
    Start {
        phase: Phase::Dxe,
        volume: volume_of(catalog, number),
        name: name_of(catalog, number),
    }
}

// The driver whose turn it is, over what is installed.
fn turn_of<M: PeiStore>(
    alloc: Global,
    catalog: &Catalog,
    installed: &Installed<'_, M>,
    number: Option<u32>,
) -> Result<Turn, OutOfMemory>
    requires state { Present (M.stands_for installed.now.store.now) Anything }
    ensures { OfEach (M.stands_for installed.now.store.now) Anything
        (λ s. IfOk result (IsTurnOf catalog.now s installed.now.handles.now number)) }
{
    let lacks = lacks_of(alloc, catalog, installed, number)?;
    let start = match number {
        Some(number) => Some(start_of(catalog, number)),
        None => None,
    };
    Ok(Turn { start, lacks })
}

// Whether a boot that ended so has ended short, with this module's turn left: no fuel and no room was wanting.
fn ends_short(end: RunEnd, turn: Option<u32>) -> bool
    ensures { result ≡ is_short end turn }
{
    match end {
        RunEnd::Done => turn.is_some(),
        RunEnd::NoMemory | RunEnd::NoIpl | RunEnd::Spent | RunEnd::Deep => false,
    }
}

// How a boot ends, by what it has come to.
fn leave<M: PeiStore + Drop>(
    alloc: Global,
    catalog: &Catalog,
    booted: &Booted<M>,
) -> Result<Passed, OutOfMemory>
    requires state { Present (M.stands_for (store_of booted.now)) Anything }
    requires in_dxe { IsNotLeftInPei booted.now }
    ensures { OfEach (M.stands_for (store_of booted.now)) Anything
        (λ s. IfOk result (LeavesBoot catalog.now s booted.now)) }
{
    match booted {
        Booted::Ended(ran) => {
            if !ends_short(ran.end, ran.before.turn) {
                return Ok(Passed::Ended(ran.end));
            }
            let installed = Installed {
                store: &ran.pei.store,
                handles: &ran.handles,
            };
            Ok(Passed::No(turn_of(alloc, catalog, &installed, ran.before.turn)?))
        }
        Booted::BarredInPei(_) => unreachable!(),
        Booted::BarredInDxe { pei, barred } => {
            let installed = Installed {
                store: &pei.store,
                handles: &barred.handles,
            };
            Ok(Passed::No(turn_of(alloc, catalog, &installed, barred.before.turn)?))
        }
    }
}

// Boots a new store in the order of EDK2's dispatchers.
fn pass_boot<M: PeiStore + Drop, S: Sink>(
    alloc: Global,
    catalog: &Catalog,
    store: M,
    fuel: u32,
    sink: &mut S,
) -> Result<Passed, Halt>
    requires catalog { IsWellFormed catalog.now }
    requires some { 1 ≤ length catalog.now.volumes }
    requires opening { (board : Board) × M.stands_for store (empty_store board) }
    ensures row { (board : Board) → M.stands_for store (empty_store board)
        → IfOk result (PassesTo board catalog.now fuel (record { old = S.text sink.old; new = S.text sink.new })) }
    ensures faults { HaltsAfter result (S.faults sink.old) (S.faults sink.new) }
{
    cursor_aims();
    choices_are_free::<S, InTurns>(&InTurns);
    let mut watch = nobody();
    let booted = boot_by_choice(alloc, store, catalog, fuel, &InTurns, &mut watch, sink)?;
    let passed = leave(alloc, catalog, &booted);
    drop(booted);
    Ok(passed?)
}

// Boots the images of a catalogue in that order.
fn pass_over<S: Sink>(
    alloc: Global,
    plan: &Plan,
    catalog: &Catalog,
    images: Seq<Seq<u8>>,
    sink: &mut S,
) -> Result<Passed, FollowFault>
    requires board { IsBoard (board_of plan.now catalog.now images) }
    requires catalog { IsWellFormed catalog.now }
    requires some { 1 ≤ length catalog.now.volumes }
    ensures row { PassesOver (board_of plan.now catalog.now images) catalog.now plan.now.fuel
        (record { old = S.text sink.old; new = S.text sink.new }) result }
    ensures faults { FaultsAfter result (S.faults sink.old) (S.faults sink.new) }
{
    let Ok(store) = store_of(alloc, plan, catalog, images) else {
        return Err(FollowFault::Memory);
    };
    match pass_boot(alloc, catalog, store, plan.fuel, sink) {
        Ok(passed) => Ok(passed),
        Err(Halt::Sink) => Err(FollowFault::Sink),
        Err(Halt::Memory) => Err(FollowFault::Memory),
    }
}

/// Boots a plan and its images in the order of EDK2's dispatchers, and prints the boot's lines as they come: those of a boot that the rules allow. It is left, or has ended, where the driver whose turn it is may not start.
///
/// There are as many images as volumes of the plan. The images' first fault comes first; nothing is then printed. PI 1.8, volumes 1 and 2, leave the order to the dispatchers.
pub fn passes<S: Sink>(
    alloc: Global,
    plan: &Plan,
    images: Seq<Seq<u8>>,
    sink: &mut S,
) -> Result<Passed, FollowFault>
    requires in_range { IsPlanInRange plan.now }
    requires as_many { length images ≡ length plan.now.volumes }
    ensures row { Passes plan.now images (record { old = S.text sink.old; new = S.text sink.new }) result }
    ensures faults { FaultsAfter result (S.faults sink.old) (S.faults sink.new) }
{
    boards_are_sound();
    catalogues_are_well_formed();
    let catalog = match catalog(alloc, plan, images.as_slice()) {
        Ok(catalog) => catalog,
        Err(fault) => {
            drop(images);
            return Err(fault_of(fault));
        }
    };
    let passed = pass_over(alloc, plan, &catalog, images, sink);
    drop(catalog);
    passed
}

/// The order of EDK2's dispatchers leads to one boot: whoever boots a catalogue so comes to the same end, with the same text.
pub fn one_pass()
    ensures { OnePass }
{
    cursor_aims();
    order_is_of_modules();
}
