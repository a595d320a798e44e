//! Whose turn it is in the order of EDK2's PEI core, and what a choice is told of it.
ghost use Rattle.std.specs.Prelude.{◌≡◌, ◌≤◌, ◌+◌, find};
ghost use Rattle.boot_model.specs.PeiMachine.{PeiMachine};
ghost use Rattle.mod_catalog.specs.{WellFormed.IsWellFormed, declared.catalogue.Catalog.Catalog as OfCatalog};
ghost use Rattle.pei_dispatch.specs.{InTurn.next_again, InTurn.told_in_pei, Queue.owed_by, Turns.IsNow, View.awaits_at};
ghost use Rattle.pei_dispatch.specs.InTurn as T;

use crate::PeiQueue;
use crate::queue::awaits_again;
use boot_laws::{Before, Choice};
use boot_model::{PeimState, state_of};
use depex_code::Steps;
use mod_catalog::Catalog;
use pei_core::Pei;
use std::sync::ledger::Ledger;
use store_model::PeiStore;

// The first of these modules that awaits its second start, by how far each module has come.
fn first_awaiting(order: &[u32], states: &[PeimState]) -> Option<u32>
    ensures { result ≡ find (awaits_at states.now) order.now }
{
    'parts: for number in order {
        if awaits_again(state_of(states, *number)) {
            return Some(*number);
        }
    }
    None
}

// The first part that may start a second time. None before the store has moved.
fn next_again<M: PeiStore + Drop>(pei: &Pei<M>, queue: &PeiQueue) -> Option<u32>
    requires state { (catalog : OfCatalog) × (m : PeiMachine) × IsNow M.stands_for catalog pei.now queue.now m }
    ensures { (catalog : OfCatalog) (m : PeiMachine) → IsNow M.stands_for catalog pei.now queue.now m → result ≡ next_again catalog m }
{
    if !pei.store().moved() {
        return None;
    }
    first_awaiting(queue.as_slice(), pei.states())
}

/// The PEIM whose turn it is in the order of EDK2's PEI core. None if no part may start.
pub fn in_turn<M: PeiStore + Drop, L: Ledger>(
    pei: &Pei<M>,
    queue: &mut PeiQueue,
    catalog: &Catalog,
    steps: &mut Steps<L>,
) -> Option<u32>
    requires catalog { IsWellFormed catalog.now }
    requires state { (m : PeiMachine) × IsNow M.stands_for catalog.now pei.now queue.old m }
    ensures turn { (m : PeiMachine) → IsNow M.stands_for catalog.now pei.now queue.old m → result ≡ T.in_turn catalog.now m }
    ensures kept { (m : PeiMachine) → IsNow M.stands_for catalog.now pei.now queue.old m
        → IsNow M.stands_for catalog.now pei.now queue.new m }
    ensures few_steps { steps.new + owed_by queue.new ≤ steps.old + owed_by queue.old }
{
    match next_again(pei, queue) {
        Some(number) => Some(number),
        None => {
            let from = queue.behind_walked();
            queue.choose_from(catalog, from, steps)
        }
    }
}

/// What the choice is told before a start: how many starts there were, and whose turn it is if it wants to know. If it does not, no part is looked for.
pub fn before_start<M: PeiStore + Drop, S, C: Choice<S>, L: Ledger>(
    pei: &Pei<M>,
    queue: &mut PeiQueue,
    choice: &C,
    catalog: &Catalog,
    steps: &mut Steps<L>,
) -> Before
    requires catalog { IsWellFormed catalog.now }
    requires state { (m : PeiMachine) × IsNow M.stands_for catalog.now pei.now queue.old m }
    ensures told { (m : PeiMachine) → IsNow M.stands_for catalog.now pei.now queue.old m → result ≡ told_in_pei (C.rules choice.now) catalog.now m }
    ensures kept { (m : PeiMachine) → IsNow M.stands_for catalog.now pei.now queue.old m
        → IsNow M.stands_for catalog.now pei.now queue.new m }
    ensures few_steps { steps.new + owed_by queue.new ≤ steps.old + owed_by queue.old }
{
    let starts = u64::from(pei.starts());
    if choice.wants_turn() {
        let turn = in_turn(pei, queue, catalog, steps);
        return Before { starts, turn };
    }
    Before { starts, turn: None }
}
