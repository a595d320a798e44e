// DXE by a choice from the hand-off to its end, explained.
ghost use Rattle.std.specs.Prelude.{◌≡◌, ◌<◌, ℕ, [], IfOk};
ghost use Rattle.boot_model.specs.DxeRun.{dxe_opening};
ghost use Rattle.mod_catalog.specs.WellFormed.{IsWellFormed};
ghost use Rattle.dxe_dispatch.specs.Queue.{IsNewQueue, IsQueueFor};
ghost use Rattle.dxe_core.specs.Standing.{IsFor, StandsFor};
ghost use Rattle.store_model.specs.{Service.Present, Service.OfEach, StoreCall.Anything, StoreState.StoreState};
ghost use Rattle.boot_reasons.specs.DxeTelling.{Ends, Explains, ExplainsBehind, ExplainsEnd, IsAtOpening};

use crate::copied::copied;
use crate::dxe_held::held_drivers;
use crate::dxe_turn::tell;
use crate::givers::actor;
use crate::nowhere::Nowhere;
use crate::told::DxeTold;
use boot_laws::{
    Choice, Reached, discovered_order_has_each_once, dxe_chooses_by_groups, dxe_goes_on, dxe_opens,
    groups_are_aimed, unrequested_drivers_wait,
};
use boot_model::DxeEnd;
use depex_code::Steps;
use dxe_core::Dxe;
use dxe_dispatch::{Agenda, DriverQueue, Turn, bound, dxe_at_opening, turn_by};
use explain_text::{Begun, Held};
use mod_catalog::Catalog;
use pi_base::{OutOfMemory, Seq};
use std::alloc::Global;
use std::marker::Brand;
use std::sync::ledger::{Blank, Ledger};
use store_model::PeiStore;

/// What DXE comes to, explained.
#[derive(Drop)]
pub(crate) struct DxeExplained {
    pub(crate) end: DxeEnd,
    pub(crate) begun: Seq<Begun>,
    pub(crate) held: Seq<Held>,
    pub(crate) discovered: Seq<u32>,
    pub(crate) actions: u32,
}

// DXE by a choice to its end, or to a start that is not let, and what it tells. `in_pei` is how many starts there were in PEI.
fn run_to_end<M: PeiStore, C: Choice<Nowhere>, L: Ledger>(
    dxe: &mut Dxe,
    store: &M,
    agenda: &mut Agenda,
    choice: &C,
    in_pei: u32,
    catalog: &Catalog,
    told: &mut DxeTold,
    steps: &mut Steps<L>,
) -> Result<Reached<DxeEnd>, OutOfMemory>
    requires catalog { IsWellFormed catalog.now }
    requires queue { IsQueueFor catalog.now agenda.old.queue }
    requires opening { (s : StoreState) × (actions : ℕ) × (fuel : ℕ)
        × IsAtOpening M.stands_for store.now catalog.now fuel s actions (C.rules choice.now).wants_turn dxe.old agenda.old told.old }
    ensures row { IfOk result (Ends (C.rules choice.now) in_pei M.stands_for store.now catalog.now
        dxe.old agenda.old told.old dxe.new agenda.new.queue told.new) }
{
    dxe_opens();
    dxe_goes_on();
    dxe_chooses_by_groups();
    groups_are_aimed();
    // What is put goes nowhere, which never fails.
    let mut nowhere = Nowhere;
    'turns: for _ in 0..bound(catalog, dxe.fuel()) {
        let actor = actor(dxe.running());
        match turn_by(
            dxe,
            store,
            agenda,
            choice,
            in_pei,
            catalog,
            &mut nowhere,
            steps,
        ) {
            Ok(Turn::Took(step)) => tell(told, dxe, catalog, &step, actor)?,
            Ok(Turn::Reached(reached)) => return Ok(reached),
            Err(_) => return Err(OutOfMemory),
        }
    }
    unreachable!()
}

// The end of DXE, explained.
fn explain_end<M: PeiStore>(
    alloc: Global,
    dxe: &Dxe,
    store: &M,
    queue: &DriverQueue,
    catalog: &Catalog,
    told: DxeTold,
    end: DxeEnd,
) -> Result<DxeExplained, OutOfMemory>
    ensures { IfOk result (ExplainsEnd M.stands_for store.now catalog.now dxe.now queue.now told end) }
{
    let Ok(held) = held_drivers(alloc, dxe, queue, catalog, &told.givers) else {
        drop(told);
        return Err(OutOfMemory);
    };
    let Ok(discovered) = copied(alloc, dxe.order().volumes()) else {
        drop(held);
        drop(told);
        return Err(OutOfMemory);
    };
    Ok(DxeExplained {
        end,
        begun: told.begun,
        held,
        discovered,
        actions: dxe.actions(),
    })
}

// The whole of DXE from its opening, over a new agenda.
fn explain_opened<M: PeiStore, C: Choice<Nowhere>, L: Ledger>(
    alloc: Global,
    dxe: &mut Dxe,
    store: &M,
    agenda: &mut Agenda,
    choice: &C,
    in_pei: u32,
    catalog: &Catalog,
    steps: &mut Steps<L>,
) -> Result<Reached<DxeExplained>, OutOfMemory>
    requires catalog { IsWellFormed catalog.now }
    requires new { IsNewQueue catalog.now agenda.old.queue }
    requires queue { IsQueueFor catalog.now agenda.old.queue }
    requires passes { agenda.old.passes ≡ record { wanted = (C.rules choice.now).wants_turn; drivers = []; left = [] } }
    requires opening { (s : StoreState) × (actions : ℕ) × (fuel : ℕ) × IsFor catalog.now fuel dxe.old
        × StandsFor M.stands_for store.now catalog.now dxe.old (dxe_opening catalog.now s actions) }
    ensures row { IfOk result (Explains (C.rules choice.now) in_pei M.stands_for store.now catalog.now dxe.old) }
{
    dxe_opens();
    unrequested_drivers_wait();
    discovered_order_has_each_once();
    let volumes = dxe.order().volumes();
    agenda.queue.discover(catalog, dxe.order(), volumes)?;
    agenda.passes.discover(catalog, volumes)?;
    let mut told = DxeTold::new(alloc);
    match run_to_end(
        dxe, store, agenda, choice, in_pei, catalog, &mut told, steps,
    ) {
        Ok(Reached::End(end)) => {
            match explain_end(alloc, dxe, store, &agenda.queue, catalog, told, end) {
                Ok(explained) => Ok(Reached::End(explained)),
                Err(OutOfMemory) => Err(OutOfMemory),
            }
        }
        Ok(Reached::Barred(number)) => {
            drop(told);
            Ok(Reached::Barred(number))
        }
        Err(OutOfMemory) => {
            drop(told);
            Err(OutOfMemory)
        }
    }
}

// The same over an agenda that is made for it. The expressions that are evaluated are counted in the ledger of a blank.
fn explain_with_ledger<M: PeiStore, C: Choice<Nowhere>, L: Ledger>(
    alloc: Global,
    dxe: &mut Dxe,
    store: &M,
    choice: &C,
    in_pei: u32,
    catalog: &Catalog,
    blank: Blank,
) -> Result<Reached<DxeExplained>, OutOfMemory>
    requires catalog { IsWellFormed catalog.now }
    requires opening { (s : StoreState) × (actions : ℕ) × (fuel : ℕ) × IsFor catalog.now fuel dxe.old
        × StandsFor M.stands_for store.now catalog.now dxe.old (dxe_opening catalog.now s actions) }
    requires name { blank.name ≡ L.name }
    requires parts { blank.parts ≡ L.parts }
    requires counts { 0 < L.parts }
    ensures row { IfOk result (Explains (C.rules choice.now) in_pei M.stands_for store.now catalog.now dxe.old) }
{
    let mut agenda = Agenda::new(alloc, catalog, choice.wants_turn())?;
    let mut steps = Steps::<L>::new(blank);
    let reached = explain_opened(
        alloc,
        dxe,
        store,
        &mut agenda,
        choice,
        in_pei,
        catalog,
        &mut steps,
    );
    drop(agenda);
    reached
}

/// The whole of DXE by a choice behind the hand-off of a store, to its end, or to the start of a driver that the choice does not let. `fuel` is how many actions may be taken in both phases, `taken` how many PEI took, and `in_pei` how many starts there were in it.
pub(crate) fn explain_dxe<M: PeiStore, C: Choice<Nowhere>>(
    alloc: Global,
    store: &M,
    catalog: &Catalog,
    fuel: u32,
    taken: u32,
    in_pei: u32,
    choice: &C,
) -> Result<Reached<DxeExplained>, OutOfMemory>
    requires catalog { IsWellFormed catalog.now }
    requires state { Present (M.stands_for store.now) Anything }
    ensures { OfEach (M.stands_for store.now) Anything
        (λ s. IfOk result (λ reached. ExplainsBehind (C.rules choice.now) in_pei
        catalog.now fuel taken reached s)) }
{
    let Ok(mut dxe) = dxe_at_opening(alloc, store, catalog, fuel, taken) else {
        return Err(OutOfMemory);
    };
    let blank = Blank::new(1);
    let reached = explain_with_ledger::<M, C, Brand>(
        alloc, &mut dxe, store, choice, in_pei, catalog, blank,
    );
    drop(dxe);
    reached
}
