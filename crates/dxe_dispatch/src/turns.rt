//! A turn of the run: a step of the machine.
ghost use Rattle.std.specs.Prelude.{◌≡◌, ◌≢◌, ◌≤◌, ◌+◌, ℕ, Bool, [], OnOk};
ghost use Rattle.boot_io.specs.Halted.{HaltsAfter};
ghost use Rattle.boot_model.specs.DxeMachine.{DxeMachine};
ghost use Rattle.mod_catalog.specs.WellFormed.{IsWellFormed};
ghost use Rattle.dxe_dispatch.specs.Queue.{IsQueueFor, owed};
ghost use Rattle.dxe_dispatch.specs.Choices.{IsOnWay, TurnsByChoice, TurnsTold};
ghost use Rattle.dxe_core.specs.{Standing.IsFor, Steps.IsIdle};
ghost use Rattle.dxe_dispatch.specs.Turns.{AreKeptFor, IsAtTurn, OwesBehind, TurnsDxe, TurnsIdleDxe};

use crate::DriverQueue;
use crate::aim::{aim, named};
use crate::answer::{Step, Turn};
use crate::choose::choose;
use crate::passes::Agenda;
use crate::stop::put_stop;
use crate::tell::tell;
use boot_io::{Halt, Sink};
use boot_laws::{
    Before, Choice, Reached, dxe_chooses_by_groups, dxe_goes_on, dxe_opens, groups_are_aimed,
};
use boot_model::DxeEnd;
use depex_code::Steps;
use dxe_core::{Dxe, Stepped};
use mod_catalog::Catalog;
use std::sync::ledger::Ledger;
use store_model::PeiStore;

// The next driver starts, if the choice lets it, or DXE stops. The choice is told `before`.
fn start_or_stop<S: Sink, C: Choice<S>, L: Ledger>(
    dxe: &mut Dxe,
    queue: &mut DriverQueue,
    choice: &C,
    before: Before,
    catalog: &Catalog,
    sink: &mut S,
    steps: &mut Steps<L>,
) -> Result<Turn, Halt>
    requires catalog { IsWellFormed catalog.now }
    requires made { IsQueueFor catalog.now queue.old }
    requires state { (m : DxeMachine) × AreKeptFor catalog.now dxe.old queue.old m × IsIdle m }
    ensures row { TurnsIdleDxe ((C.rules choice.now).lets_in_dxe before) catalog.now (record {
      core = dxe.old;
      queue = queue.old;
      later = dxe.new;
      grown = queue.new;
      old = S.text sink.old;
      new = S.text sink.new;
    }) result }
    ensures made { OnOk result ((fuel : ℕ) → IsFor catalog.now fuel dxe.old → IsFor catalog.now fuel dxe.new) }
    ensures queue { OnOk result (IsQueueFor catalog.now queue.new) }
    ensures faults { HaltsAfter result (S.faults sink.old) (S.faults sink.new) }
    ensures few_steps { steps.new ≤ steps.old + owed queue.old }
    ensures owes { OnOk result (steps.new + owed queue.new ≤ steps.old + owed queue.old) }
{
    match choose(dxe, queue, catalog, steps)? {
        Some(next) => {
            if !choice.lets_driver(before, next.module_number) {
                return Ok(Turn::Reached(Reached::Barred(next.module_number)));
            }
            dxe.start(catalog, next, sink)?;
            Ok(Turn::Took(Step::Started(next)))
        }
        None => {
            put_stop(dxe, queue, catalog, sink)?;
            Ok(Turn::Reached(Reached::End(DxeEnd::Done)))
        }
    }
}

// The core's own step, where a script runs, so that no driver starts. The queue is told what it did: the a priori drivers of the volumes that it discovered are scheduled.
fn act<M: PeiStore, S: Sink>(
    dxe: &mut Dxe,
    store: &M,
    queue: &mut DriverQueue,
    catalog: &Catalog,
    sink: &mut S,
) -> Result<Turn, Halt>
    requires catalog { IsWellFormed catalog.now }
    requires queue { IsQueueFor catalog.now queue.old }
    requires busy { dxe.old.frames ≢ [] }
    requires state { (m : DxeMachine) × (fuel : ℕ) × IsFor catalog.now fuel dxe.old
        × IsAtTurn M.stands_for store.now catalog.now fuel dxe.old queue.old m }
    ensures row { (lets : ℕ → Bool) → TurnsDxe lets M.stands_for store.now catalog.now (record {
      core = dxe.old;
      queue = queue.old;
      later = dxe.new;
      grown = queue.new;
      old = S.text sink.old;
      new = S.text sink.new;
    }) result }
    ensures made { OnOk result ((fuel : ℕ) → IsFor catalog.now fuel dxe.old → IsFor catalog.now fuel dxe.new) }
    ensures queue { OnOk result (IsQueueFor catalog.now queue.new) }
    ensures faults { HaltsAfter result (S.faults sink.old) (S.faults sink.new) }
    ensures owes { OnOk result ((before : ℕ) → OwesBehind M.stands_for store.now catalog.now dxe.old queue.old
        (before + owed queue.old) (before + owed queue.new)) }
{
    match dxe.step(store, catalog, sink)? {
        Stepped::Went(event) => {
            tell(dxe, queue, &event);
            let order = dxe.order();
            queue.discover(catalog, order, order.newest(event.discovered))?;
            Ok(Turn::Took(Step::Acted(event)))
        }
        Stepped::Idle => unreachable!(),
        Stepped::Ended(end) => Ok(Turn::Reached(Reached::End(end))),
    }
}

// The core takes a step; where it has none left the next driver starts, if the choice lets it, or DXE stops. The choice is told `before`.
fn turn<M: PeiStore, S: Sink, C: Choice<S>, L: Ledger>(
    dxe: &mut Dxe,
    store: &M,
    queue: &mut DriverQueue,
    choice: &C,
    before: Before,
    catalog: &Catalog,
    sink: &mut S,
    steps: &mut Steps<L>,
) -> Result<Turn, Halt>
    requires catalog { IsWellFormed catalog.now }
    requires queue { IsQueueFor catalog.now queue.old }
    requires state { (m : DxeMachine) × (fuel : ℕ) × IsFor catalog.now fuel dxe.old
        × IsAtTurn M.stands_for store.now catalog.now fuel dxe.old queue.old m }
    ensures row { TurnsDxe ((C.rules choice.now).lets_in_dxe before) M.stands_for store.now catalog.now (record {
      core = dxe.old;
      queue = queue.old;
      later = dxe.new;
      grown = queue.new;
      old = S.text sink.old;
      new = S.text sink.new;
    }) result }
    ensures made { OnOk result ((fuel : ℕ) → IsFor catalog.now fuel dxe.old → IsFor catalog.now fuel dxe.new) }
    ensures queue { OnOk result (IsQueueFor catalog.now queue.new) }
    ensures faults { HaltsAfter result (S.faults sink.old) (S.faults sink.new) }
    ensures few_steps { steps.new ≤ steps.old + owed queue.old }
    ensures owes { OnOk result (OwesBehind M.stands_for store.now catalog.now dxe.old queue.old
        (steps.old + owed queue.old) (steps.new + owed queue.new)) }
{
    if dxe.is_idle() {
        start_or_stop(dxe, queue, choice, before, catalog, sink, steps)
    } else {
        act(dxe, store, queue, catalog, sink)
    }
}

// A driver is named, where one is to be chosen, and the choice is aimed at it; then a turn. The choice is told `before`.
fn turn_told<M: PeiStore, S: Sink, C: Choice<S>, L: Ledger>(
    dxe: &mut Dxe,
    store: &M,
    agenda: &mut Agenda,
    choice: &C,
    before: Before,
    catalog: &Catalog,
    sink: &mut S,
    steps: &mut Steps<L>,
) -> Result<Turn, Halt>
    requires catalog { IsWellFormed catalog.now }
    requires queue { IsQueueFor catalog.now agenda.old.queue }
    requires state { (m : DxeMachine) × (fuel : ℕ) × IsFor catalog.now fuel dxe.old
        × IsOnWay M.stands_for store.now catalog.now dxe.old agenda.old.queue m }
    ensures row { TurnsTold (record { rules = C.rules choice.now; text = S.text; faults = S.faults }) before
        M.stands_for store.now catalog.now (record {
          core = dxe.old;
          agenda = agenda.old;
          sink = sink.old;
          before = steps.old + owed agenda.old.queue;
          later = dxe.new;
          grown = agenda.new;
          shown = sink.new;
          now = steps.new + owed agenda.new.queue;
        }) result }
    ensures made { OnOk result ((fuel : ℕ) → IsFor catalog.now fuel dxe.old → IsFor catalog.now fuel dxe.new) }
    ensures queue { OnOk result (IsQueueFor catalog.now agenda.new.queue) }
    ensures passes { agenda.new.passes ≡ agenda.old.passes }
    ensures faults { HaltsAfter result (S.faults sink.old) (S.faults sink.new) }
    ensures few_steps { steps.new ≤ steps.old + owed agenda.old.queue }
{
    dxe_opens();
    dxe_goes_on();
    dxe_chooses_by_groups();
    groups_are_aimed();
    let driver = named(dxe, &agenda.queue, choice, before, sink);
    aim(dxe, &mut agenda.queue, catalog, driver, steps)?;
    turn(
        dxe,
        store,
        &mut agenda.queue,
        choice,
        before,
        catalog,
        sink,
        steps,
    )
}

/// A step of the machine, and what it was; where a driver is to be chosen, a choice may name one first, and a driver starts only if it lets it. The choice is told how many starts there were, and whose turn it is in the order of EDK2's dispatcher, if it wants to know. `in_pei` is how many starts there were in PEI.
pub fn turn_by<M: PeiStore, S: Sink, C: Choice<S>, L: Ledger>(
    dxe: &mut Dxe,
    store: &M,
    agenda: &mut Agenda,
    choice: &C,
    in_pei: u32,
    catalog: &Catalog,
    sink: &mut S,
    steps: &mut Steps<L>,
) -> Result<Turn, Halt>
    requires catalog { IsWellFormed catalog.now }
    requires queue { IsQueueFor catalog.now agenda.old.queue }
    requires state { (m : DxeMachine) × (fuel : ℕ) × IsFor catalog.now fuel dxe.old
        × IsOnWay M.stands_for store.now catalog.now dxe.old agenda.old.queue m }
    ensures row { TurnsByChoice (record {
      by = record { rules = C.rules choice.now; text = S.text; faults = S.faults };
      in_pei = in_pei;
    })
        M.stands_for store.now catalog.now (record {
          core = dxe.old;
          agenda = agenda.old;
          sink = sink.old;
          before = steps.old + owed agenda.old.queue;
          later = dxe.new;
          grown = agenda.new;
          shown = sink.new;
          now = steps.new + owed agenda.new.queue;
        }) result }
    ensures made { OnOk result ((fuel : ℕ) → IsFor catalog.now fuel dxe.old → IsFor catalog.now fuel dxe.new) }
    ensures queue { OnOk result (IsQueueFor catalog.now agenda.new.queue) }
    ensures faults { HaltsAfter result (S.faults sink.old) (S.faults sink.new) }
    ensures few_steps { steps.new ≤ steps.old + owed agenda.old.queue }
{
    agenda.refill(dxe, catalog, steps)?;
    let before = agenda.before(in_pei);
    let left = agenda.queue.left_count();
    let known = dxe.order().volumes().len();
    let turn = turn_told(dxe, store, agenda, choice, before, catalog, sink, steps)?;
    agenda.follow(catalog, dxe.order(), left, known, &turn)?;
    Ok(turn)
}
