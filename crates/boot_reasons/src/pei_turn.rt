// A turn of the run of PEI by a choice, and what it tells.
ghost use Rattle.std.specs.Prelude.{◌≡◌, ◌++◌, ℕ, IfOk, OnOk, option_to_list};
ghost use Rattle.std.specs.Option.{option_or};
ghost use Rattle.boot_model.specs.PeiMachine.{PeiMachine};
ghost use Rattle.mod_catalog.specs.WellFormed.{IsWellFormed};
ghost use Rattle.store_model.specs.Service.Install.{has_ppi};
ghost use Rattle.pei_core.specs.{Standing.IsFor, Standing.StandsFor, Steps.IsIdle};
ghost use Rattle.pei_dispatch.specs.Turns.{IsChosen, IsNow};
ghost use Rattle.boot_reasons.specs.{Noting.AreNoted, Noting.giver_in, Moving.moved_from, PeiReasons.pei_begun_at};
ghost use Rattle.boot_reasons.specs.PeiTelling.{IsEventNoted, IsStartTold, Turns, TurnsIdle};

use crate::givers::{Givers, actor};
use crate::moves::{first_move, unmoved_base};
use crate::needs::needs_of;
use crate::nowhere::Nowhere;
use crate::told::PeiTold;
use boot_laws::{
    Choice, Reached, cursor_aims, guids_are_these, guids_change, pei_opens, pei_starts_freely,
};
use boot_model::{PeiEnd, state_of};
use depex_code::Steps;
use explain_text::{Begun, Giver};
use mod_catalog::Catalog;
use pei_core::{Event, Pei, Stepped};
use pei_dispatch::{PeiQueue, aim, before_start, choose, go_on, licence_of, start, stop_pei};
use phase_parts::part_of;
use pi_base::{Guid, OutOfMemory, Phase};
use std::sync::ledger::Ledger;
use store_model::PeiStore;

// Tells of the PPI that an event took away.
fn tell_gone<M: PeiStore + Drop>(
    givers: &mut Givers,
    pei: &Pei<M>,
    gone: Option<Guid>,
    actor: Giver,
) -> Result<(), OutOfMemory>
    requires state { (m : PeiMachine) × StandsFor M.stands_for pei.now m }
    ensures { (m : PeiMachine) → StandsFor M.stands_for pei.now m
        → OnOk result (AreNoted (has_ppi m.store) actor (option_to_list gone) givers.old.map givers.new.map) }
{
    match gone {
        Some(guid) => givers.note(&guid, pei.store(), actor),
        None => Ok(()),
    }
}

// Tells of an event which PPIs came and went.
fn tell_event<M: PeiStore + Drop>(
    givers: &mut Givers,
    pei: &Pei<M>,
    event: &Event,
    actor: Giver,
) -> Result<(), OutOfMemory>
    requires state { (m : PeiMachine) × StandsFor M.stands_for pei.now m }
    ensures { (m : PeiMachine) → StandsFor M.stands_for pei.now m
        → OnOk result (IsEventNoted m.store event.now actor givers.old.map givers.new.map) }
{
    tell_gone(givers, pei, event.changes.gone, actor)?;
    givers.note_all(event.changes.there.as_slice(), pei.store(), actor)
}

// Tells of the start of a module from here.
fn tell_start<M: PeiStore + Drop>(
    told: &mut PeiTold,
    pei: &Pei<M>,
    catalog: &Catalog,
    number: u32,
) -> Result<(), OutOfMemory>
    requires state { (m : PeiMachine) × StandsFor M.stands_for pei.now m }
    ensures begun { (m : PeiMachine) → StandsFor M.stands_for pei.now m
        → OnOk result (told.new.begun ≡ told.old.begun ++ pei_begun_at catalog.now m (giver_in told.old.givers.map) number) }
    ensures givers { told.new.givers ≡ told.old.givers }
    ensures moved { told.new.moved ≡ told.old.moved }
{
    let part = match part_of(catalog, Phase::Pei, number) {
        Some(part) => part,
        None => return Ok(()),
    };
    let needs = needs_of(told.begun.alloc(), &told.givers, Phase::Pei, part)?;
    told.begun.push(Begun {
        number,
        phase: Phase::Pei,
        licence: licence_of(state_of(pei.states(), number), part),
        beside: None,
        needs,
    })
}

// The PEIM that comes next starts, and is told of.
fn start_told<M: PeiStore + Drop>(
    pei: &mut Pei<M>,
    queue: &mut PeiQueue,
    catalog: &Catalog,
    told: &mut PeiTold,
    number: u32,
) -> Result<(), OutOfMemory>
    requires catalog { IsWellFormed catalog.now }
    requires made { (fuel : ℕ) × IsFor catalog.now fuel pei.old }
    requires state { (m : PeiMachine) × IsChosen M.stands_for catalog.now pei.old queue.old m number }
    ensures row { (m : PeiMachine) → IsChosen M.stands_for catalog.now pei.old queue.old m number
        → OnOk result (IsStartTold M.stands_for catalog.now m number pei.new queue.new told.old told.new) }
    ensures made { (fuel : ℕ) → IsFor catalog.now fuel pei.old → IsFor catalog.now fuel pei.new }
{
    tell_start(told, pei, catalog, number)?;
    // What is put goes nowhere, which never fails.
    match start(pei, queue, catalog, number, &mut Nowhere) {
        Ok(()) => Ok(()),
        Err(_) => Err(OutOfMemory),
    }
}

// The next PEIM starts, and is told of, if the choice lets it, or PEI stops.
fn start_or_stop<M: PeiStore + Drop, C: Choice<Nowhere>, L: Ledger>(
    pei: &mut Pei<M>,
    queue: &mut PeiQueue,
    choice: &C,
    catalog: &Catalog,
    told: &mut PeiTold,
    steps: &mut Steps<L>,
) -> Result<Option<Reached<PeiEnd>>, OutOfMemory>
    requires catalog { IsWellFormed catalog.now }
    requires made { (fuel : ℕ) × IsFor catalog.now fuel pei.old }
    requires state { (m : PeiMachine) × IsNow M.stands_for catalog.now pei.old queue.old m × IsIdle m }
    ensures row { IfOk result (TurnsIdle (C.rules choice.now) M.stands_for catalog.now
        pei.old queue.old told.old pei.new queue.new told.new) }
    ensures made { (fuel : ℕ) → IsFor catalog.now fuel pei.old → IsFor catalog.now fuel pei.new }
{
    cursor_aims();
    pei_opens();
    pei_starts_freely();
    let before = before_start(pei, queue, choice, catalog, steps);
    aim(queue, choice.peim(&Nowhere, before));
    match choose(pei, queue, catalog, steps) {
        Some(number) => {
            if !choice.lets_peim(before, number) {
                return Ok(Some(Reached::Barred(number)));
            }
            start_told(pei, queue, catalog, told, number)?;
            Ok(None)
        }
        // What is put goes nowhere, which never fails.
        None => match stop_pei(pei, queue, catalog, &mut Nowhere) {
            Ok(end) => Ok(Some(Reached::End(end))),
            Err(_) => Err(OutOfMemory),
        },
    }
}

// Tells of a step that was none of a start.
fn tell_step<M: PeiStore + Drop>(
    told: &mut PeiTold,
    pei: &Pei<M>,
    event: Event,
    actor: Giver,
    from: Option<u64>,
) -> Result<(), OutOfMemory>
    requires state { (m : PeiMachine) × StandsFor M.stands_for pei.now m }
    ensures givers { (m : PeiMachine) → StandsFor M.stands_for pei.now m
        → OnOk result (IsEventNoted m.store event actor told.old.givers.map told.new.givers.map) }
    ensures moved { (m : PeiMachine) → StandsFor M.stands_for pei.now m
        → OnOk result (told.new.moved ≡ option_or told.old.moved (moved_from from m.store)) }
    ensures begun { told.new.begun ≡ told.old.begun }
{
    told.moved = first_move(told.moved, from, pei.store());
    let noted = tell_event(&mut told.givers, pei, &event, actor);
    drop(event);
    noted
}

/// A step of the run of PEI by a choice, and what it tells: the core takes one, or where it has none left the next PEIM starts, if the choice lets it, or PEI stops.
pub(crate) fn turn<M: PeiStore + Drop, C: Choice<Nowhere>, L: Ledger>(
    pei: &mut Pei<M>,
    queue: &mut PeiQueue,
    choice: &C,
    catalog: &Catalog,
    told: &mut PeiTold,
    steps: &mut Steps<L>,
) -> Result<Option<Reached<PeiEnd>>, OutOfMemory>
    requires catalog { IsWellFormed catalog.now }
    requires made { (fuel : ℕ) × IsFor catalog.now fuel pei.old }
    requires state { (m : PeiMachine) × IsNow M.stands_for catalog.now pei.old queue.old m }
    ensures row { IfOk result (Turns (C.rules choice.now) M.stands_for catalog.now
        pei.old queue.old told.old pei.new queue.new told.new) }
    ensures made { (fuel : ℕ) → IsFor catalog.now fuel pei.old → IsFor catalog.now fuel pei.new }
{
    guids_change();
    guids_are_these();
    cursor_aims();
    pei_opens();
    pei_starts_freely();
    let actor = actor(pei.running());
    let from = unmoved_base(pei.store());
    // What is put goes nowhere, which never fails.
    match go_on(pei, queue, catalog, &mut Nowhere) {
        Ok(Stepped::Went(event)) => match tell_step(told, pei, event, actor, from) {
            Ok(()) => Ok(None),
            Err(OutOfMemory) => Err(OutOfMemory),
        },
        Ok(Stepped::Idle) => start_or_stop(pei, queue, choice, catalog, told, steps),
        Ok(Stepped::Ended(end)) => Ok(Some(Reached::End(end))),
        Err(_) => Err(OutOfMemory),
    }
}
