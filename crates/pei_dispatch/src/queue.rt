//! The parts of PEI that wait, and the next PEIM.
ghost use Rattle.std.specs.Prelude.{◌≡◌, ◌≤◌, ◌+◌, ◌∷◌, [], true, false, Some, IfOk, length, slice_get, if◌then◌else◌};
ghost use Rattle.mod_catalog.specs.{declared.catalogue.Catalog.Catalog as OfCatalog, Parts.has_number, WellFormed.IsWellFormed};
ghost use Rattle.boot_model.specs.PeiChoice.{cursor_behind, next_peim, pei_order, volume_order};
ghost use Rattle.boot_model.specs.PeiMachine.{PeiMachine};
ghost use Rattle.pei_dispatch.specs.Queue.{AreNew, HasStarted, HasStartedBy, HaveStarted, IsInOrder, IsNewQueue, IsQueueOf, Shows, ShowsBehind, owed_by, parts_in};
ghost use Rattle.boot_laws.specs.PeiAim.{with_cursor};
ghost use Rattle.pei_dispatch.specs.InTurn.{walked};
ghost use Rattle.pei_dispatch.specs.View.{View, awaits_again, awaits_at, is_number, is_number_by, with_again, with_start, with_volumes};

use boot_laws::order_is_of_modules;
use boot_model::{PeimState, state_of};
use depex_code::Steps;
use mod_catalog::Catalog;
use phase_parts::Parts;
use pi_base::{OutOfMemory, Phase};
use std::alloc::Global;
use std::sync::ledger::Ledger;
use wait_index::{WaitIndex, next_is_the_next_peim};

/// The PEI parts of the reported volumes, in the order in which they are tried, with the index of those that wait; the cursor: how many of them stand before the place from which the next PEIM is looked for; and the module that started for the first time last.
pub struct PeiQueue {
    pub(crate) index: WaitIndex,
    pub(crate) cursor: usize,
    pub(crate) walked: Option<u32>,
}

// What it is made of is dropped by one proof, which all that own one call.
impl Drop for PeiQueue {
    fn drop(self) {
        let PeiQueue {
            index: _,
            cursor: _,
            walked: _,
        } = self;
    }
}

// Whether a module that has come so far awaits its second start.
pub(crate) fn awaits_again(state: PeimState) -> bool
    ensures { result ≡ awaits_again state }
{
    match state {
        PeimState::RegisteredForShadow => true,
        _ => false,
    }
}

// The module that started for the first time last, after a start of this one.
fn newest_after(walked: Option<u32>, number: u32, is_first: bool) -> Option<u32>
    ensures { result ≡ (if is_first then Some number else walked) }
{
    if is_first { Some(number) } else { walked }
}

impl PeiQueue {
    /// The queue where no volume is reported and nothing has started. It alone takes memory.
    pub fn build(alloc: Global, catalog: &Catalog) -> Result<PeiQueue, OutOfMemory>
        requires catalog { IsWellFormed catalog.now }
        ensures { IfOk result (IsNewQueue catalog.now) }
    {
        Ok(PeiQueue {
            index: WaitIndex::build(alloc, catalog, Phase::Pei)?,
            cursor: 0,
            walked: None,
        })
    }

    // One more volume: its ranked parts by rank, then the others by place.
    fn report_one(&mut self, catalog: &Catalog, volume: u32)
        requires catalog { IsWellFormed catalog.now }
        requires new { (view : View) × Shows catalog.now self.old view × AreNew (volume ∷ []) view }
        ensures shows { ShowsBehind catalog.now self.old self.new (AreNew (volume ∷ [])) (with_volumes (volume ∷ [])) }
        ensures cursor { self.new.cursor ≡ self.old.cursor }
        ensures walked { self.new.walked ≡ self.old.walked }
        ensures owed { owed_by self.new ≤ owed_by self.old + length (volume_order catalog.now volume) }
    {
        order_is_of_modules();
        let mut parts = Parts::new();
        parts.push_ranked(catalog, Phase::Pei, volume);
        parts.push_unranked(catalog, Phase::Pei, volume);
        self.index.discover(catalog, parts.as_slice());
    }

    /// Volumes are reported that were not yet: each with its ranked parts by rank, then its others by place.
    pub fn report(&mut self, catalog: &Catalog, volumes: &[u32])
        requires catalog { IsWellFormed catalog.now }
        requires new { (view : View) × Shows catalog.now self.old view × AreNew volumes.now view }
        ensures shows { ShowsBehind catalog.now self.old self.new (AreNew volumes.now) (with_volumes volumes.now) }
        ensures cursor { self.new.cursor ≡ self.old.cursor }
        ensures walked { self.new.walked ≡ self.old.walked }
        ensures owed { owed_by self.new ≤ owed_by self.old + length (pei_order catalog.now volumes.now) }
    {
        'volumes: for volume in volumes {
            self.report_one(catalog, *volume);
        }
    }

    /// A part starts: it waits no more, and the cursor comes to stand behind it. `is_first` says whether this is its first start.
    pub fn started(&mut self, number: u32, is_first: bool)
        requires { has_number (parts_in self.old) number ≡ true }
        ensures shows { (catalog : OfCatalog) → ShowsBehind catalog self.old self.new (IsInOrder catalog number) (with_start number) }
        ensures cursor { self.new.cursor ≡ cursor_behind (parts_in self.old) number }
        ensures walked { self.new.walked ≡ (if is_first then Some number else self.old.walked) }
        ensures owed { owed_by self.new ≤ owed_by self.old }
    {
        let Some(place) = self.index.place_of(number) else {
            unreachable!()
        };
        self.index.started(place as usize);
        self.cursor = place as usize + 1;
        self.walked = newest_after(self.walked, number, is_first);
    }

    /// The cursor comes to stand before a part, so that this part is looked at first. Where the part is not in the order, the cursor stays.
    pub fn aim(&mut self, number: u32)
        ensures shows { (catalog : OfCatalog) (view : View) → Shows catalog self.old view → Shows catalog self.new view }
        ensures parts { parts_in self.new ≡ parts_in self.old }
        ensures owed { owed_by self.new ≡ owed_by self.old }
        ensures within { self.old.cursor ≤ length (parts_in self.old) → self.new.cursor ≤ length (parts_in self.old) }
        ensures cursor { has_number (parts_in self.old) number ≡ true → slice_get (parts_in self.old) self.new.cursor ≡ Some number }
        ensures stays { has_number (parts_in self.old) number ≡ false → self.new.cursor ≡ self.old.cursor }
        ensures walked { self.new.walked ≡ self.old.walked }
    {
        if let Some(place) = self.index.place_of(number) {
            self.cursor = place as usize;
        }
    }

    /// A part that has started may start again.
    pub fn again(&mut self, number: u32)
        ensures shows { (catalog : OfCatalog) → ShowsBehind catalog self.old self.new (HasStarted number) (with_again (is_number number)) }
        ensures parts { parts_in self.new ≡ parts_in self.old }
        ensures cursor { self.new.cursor ≡ self.old.cursor }
        ensures walked { self.new.walked ≡ self.old.walked }
        ensures owed { owed_by self.new ≡ owed_by self.old }
    {
        if let Some(place) = self.index.place_of(number) {
            self.index.again(place as usize);
        }
    }

    // A part that has come so far may start again, where it awaits its second start.
    fn again_by(&mut self, number: u32, state: PeimState)
        ensures shows { (catalog : OfCatalog) → ShowsBehind catalog self.old self.new (HasStartedBy number state)
            (with_again (is_number_by number state)) }
        ensures parts { parts_in self.new ≡ parts_in self.old }
        ensures cursor { self.new.cursor ≡ self.old.cursor }
        ensures walked { self.new.walked ≡ self.old.walked }
        ensures owed { owed_by self.new ≡ owed_by self.old }
    {
        if awaits_again(state) {
            self.again(number);
        }
    }

    /// All parts that await their second start, by how far each module has come, may start again.
    pub fn again_all(&mut self, states: &[PeimState])
        ensures shows { (catalog : OfCatalog) → ShowsBehind catalog self.old self.new (HaveStarted (awaits_at states.now))
            (with_again (awaits_at states.now)) }
        ensures cursor { self.new.cursor ≡ self.old.cursor }
        ensures walked { self.new.walked ≡ self.old.walked }
        ensures owed { owed_by self.new ≡ owed_by self.old }
    {
        'parts: for place in 0..self.index.order().len() {
            let number = self.index.order()[place];
            self.again_by(number, state_of(states, number));
        }
    }

    /// The next PEIM: the first of the order that may start, read from the cursor to the end and then from the front to the cursor. None where no part may start.
    /// Expressions are evaluated that may say something new.
    pub fn choose<L: Ledger>(&mut self, catalog: &Catalog, steps: &mut Steps<L>) -> Option<u32>
        requires catalog { IsWellFormed catalog.now }
        requires shows { (view : View) × Shows catalog.now self.old view }
        requires within { self.old.cursor ≤ length (parts_in self.old) }
        ensures shows { (view : View) → Shows catalog.now self.old view → Shows catalog.now self.new view }
        ensures cursor { self.new.cursor ≡ self.old.cursor }
        ensures walked { self.new.walked ≡ self.old.walked }
        ensures next { (m : PeiMachine) → IsQueueOf catalog.now m self.old → result ≡ next_peim catalog.now m }
        ensures few_steps { steps.new + owed_by self.new ≤ steps.old + owed_by self.old }
    {
        next_is_the_next_peim();
        self.index.settle(catalog, steps);
        match self.index.next(self.cursor) {
            Some(place) => self.index.module_at(place),
            None => None,
        }
    }

    /// The next PEIM as it is if the cursor is at a place. The cursor stays.
    pub fn choose_from<L: Ledger>(
        &mut self,
        catalog: &Catalog,
        from: usize,
        steps: &mut Steps<L>,
    ) -> Option<u32>
        requires catalog { IsWellFormed catalog.now }
        requires shows { (view : View) × Shows catalog.now self.old view }
        requires within { from ≤ length (parts_in self.old) }
        ensures shows { (view : View) → Shows catalog.now self.old view → Shows catalog.now self.new view }
        ensures cursor { self.new.cursor ≡ self.old.cursor }
        ensures walked { self.new.walked ≡ self.old.walked }
        ensures next { (m : PeiMachine) → IsQueueOf catalog.now m self.old → result ≡ next_peim catalog.now (with_cursor m from) }
        ensures few_steps { steps.new + owed_by self.new ≤ steps.old + owed_by self.old }
    {
        let kept = self.cursor;
        self.cursor = from;
        let next = self.choose(catalog, steps);
        self.cursor = kept;
        next
    }

    /// The place after the part that started for the first time last. The front before the first start.
    pub fn behind_walked(&self) -> usize
        ensures within { result ≤ length (parts_in self.now) }
        ensures place { (catalog : OfCatalog) (m : PeiMachine) → IsQueueOf catalog m self.now → result ≡ walked (pei_order catalog m.reported) m.started }
    {
        let Some(number) = self.walked else {
            return 0;
        };
        match self.index.place_of(number) {
            Some(place) => place as usize + 1,
            None => self.index.order().len(),
        }
    }

    /// The parts, by the numbers of their modules.
    pub fn as_slice(&self) -> &[u32]
        ensures { result.now ≡ parts_in self.now }
    {
        self.index.order()
    }
}
