// The index of the parts that wait.
ghost use Rattle.std.proofs.Props.{props};
ghost use Rattle.wait_index.specs.{Installed.HasRoom, Places.IsInOrder};

use crate::installed::Installed;
use crate::places::Places;
use crate::settle::settle;
use depex_code::Steps;
use mod_catalog::{Catalog, well_formed_expressions_are_short};
use pi_base::{Guid, Phase, Seq};
use std::sync::ledger::Ledger;

/// The parts of the known volumes, by place, and which of them may start.
pub struct WaitIndex {
    pub(crate) phase: Phase,
    pub(crate) installed: Installed,
    /// Of each slot, the modules of which the expression pushes its GUID.
    pub(crate) watchers: Seq<Seq<u32>>,
    pub(crate) places: Places,
    ghost in_order: { IsInOrder places } by { Prim.hlevel props },
    ghost room: { HasRoom installed } by { Prim.hlevel props },
}

// What it is made of is dropped by one proof, which all that own one call.
impl Drop for WaitIndex {
    fn drop(self) {
        let WaitIndex {
            phase: _,
            installed: _,
            watchers: _,
            places: _,
        } = self;
    }
}

impl WaitIndex {
    ghost use Rattle.std.specs.Prelude.{◌≡◌, ◌≤◌, ◌<◌, ◌+◌, ℕ, false, Some, length, find, slice_get, ◌↔◌};
    ghost use Rattle.std.specs.Option.{option_and_then};
    ghost use Rattle.mod_catalog.specs.declared.catalogue.Catalog.{Catalog as OfCatalog};
    ghost use Rattle.mod_catalog.specs.WellFormed.{IsWellFormed};
    ghost use Rattle.boot_model.specs.PeiChoice.{rotated};
    ghost use Rattle.wait_index.specs.Change.{started, again, gated};
    ghost use Rattle.wait_index.specs.Index.{IsIndex, IsSet, Changes, IsKnown, IsSame, Tells, order_in, owed, is_owed, asked, is_eligible_in, place_in};

    /// Evaluates the expressions that may say something new, each once: those of the parts that came, and those that push a GUID that came or went.
    pub fn settle<L: Ledger>(&mut self, catalog: &Catalog, steps: &mut Steps<L>)
        requires index { IsIndex catalog.now self.old }
        requires catalog { IsWellFormed catalog.now }
        ensures index { IsIndex catalog.now self.new }
        ensures same { IsSame self.old self.new }
        ensures settled { owed self.new ≡ 0 }
        ensures counted { steps.old ≤ steps.new }
        ensures few_steps { steps.new ≤ steps.old + owed self.old }
    {
        well_formed_expressions_are_short();
        settle(
            &mut self.places,
            self.phase,
            catalog,
            &self.installed,
            steps,
        );
    }

    /// The modules by place.
    pub fn order(&self) -> &[u32]
        ensures { result.now ≡ order_in self.now }
    {
        self.places.order.as_slice()
    }

    // Whether parts that wait for all architectural protocols may start.
    fn has_all(&self) -> bool
        ensures { (catalog : OfCatalog) → IsIndex catalog self.now → Tells self.now result }
    {
        match self.phase {
            Phase::Pei => false,
            Phase::Dxe => self.installed.has_all(),
        }
    }

    /// The first place from the cursor on, and then from the front, of which the part may start: again, or where it waits, is open, and its rank or its expression lets it.
    pub fn next(&self, cursor: usize) -> Option<usize>
        requires settled { owed self.now ≡ 0 }
        requires cursor { cursor ≤ length (order_in self.now) }
        ensures { (catalog : OfCatalog) → IsIndex catalog self.now
            → option_and_then (slice_get (order_in self.now)) result
            ≡ find (is_eligible_in catalog self.now) (rotated cursor (order_in self.now)) }
    {
        let all = self.has_all();
        let places = &self.places;
        match places.ready.first_of_two(&places.later, all, cursor) {
            Some(place) => Some(place),
            None => places.ready.first_of_two(&places.later, all, 0),
        }
    }

    /// A GUID is installed now, or is not. Where the index knows that, nothing changes.
    pub fn changed(&mut self, guid: &Guid, there: bool)
        ensures index { (catalog : OfCatalog) → IsIndex catalog self.old → IsIndex catalog self.new }
        ensures set { (catalog : OfCatalog) → IsIndex catalog self.old → IsSet catalog guid.now there self.old self.new }
        ensures owed { (catalog : OfCatalog) → IsIndex catalog self.old → owed self.new ≤ owed self.old + asked catalog self.old guid.now }
        ensures known { IsKnown guid.now there self.old → self.new ≡ self.old }
    {
        let Some(slot) = self.installed.slots.get(guid) else {
            return;
        };
        if self.installed.says(slot) != there {
            self.installed.put(slot, there);
            self.places.rouse_watchers(self.watchers.as_slice(), slot);
        }
    }

    /// The part at a place has started, for the first time or again. Its expression is asked no more.
    pub fn started(&mut self, place: usize)
        requires within { place < length (order_in self.old) }
        ensures index { (catalog : OfCatalog) → IsIndex catalog self.old → IsIndex catalog self.new }
        ensures changes { Changes started place self.old self.new }
        ensures asked { is_owed self.new place ≡ false }
        ensures owed { owed self.new ≤ owed self.old }
    {
        self.places.start(place);
    }

    /// The part at a place may start again.
    pub fn again(&mut self, place: usize)
        requires within { place < length (order_in self.old) }
        ensures index { (catalog : OfCatalog) → IsIndex catalog self.old → IsIndex catalog self.new }
        ensures changes { Changes again place self.old self.new }
        ensures owed { owed self.new ≡ owed self.old }
    {
        self.places.allow_again(place);
    }

    /// The part at a place is opened or closed: a driver with SOR is closed until it is requested.
    pub fn gate(&mut self, place: usize, is_open: bool)
        requires within { place < length (order_in self.old) }
        ensures index { (catalog : OfCatalog) → IsIndex catalog self.old → IsIndex catalog self.new }
        ensures changes { Changes (gated is_open) place self.old self.new }
        ensures owed { owed self.new ≡ owed self.old }
    {
        self.places.gate(place, is_open);
    }

    /// The module at a place. None past the last place.
    pub fn module_at(&self, place: usize) -> Option<u32>
        ensures { result ≡ slice_get (order_in self.now) place }
    {
        self.places.order.as_slice().get(place).copied()
    }

    /// The place of a module. None where its volume is not known, or it has no part.
    pub fn place_of(&self, number: u32) -> Option<u32>
        ensures place { result ≡ place_in self.now number }
        ensures at { (place : ℕ) → (result ≡ Some place) ↔ (slice_get (order_in self.now) place ≡ Some number) }
    {
        self.places.standing(number).place
    }
}
