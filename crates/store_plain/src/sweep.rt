// The pairs that a sweep has still to visit.
ghost use Rattle.std.specs.Prelude.{◌≡◌, ◌<◌, ◌≤◌, length, IfSome, IfNone, None, is_some, true};
ghost use Rattle.store_model.specs.{StateFacts.IsStoreState, StateFacts.IsSweepOf, StoreCall.IsMatch};
ghost use Rattle.store_model.specs.Service.Sweep.{next_match, first_firing, firing_at, pairs_with, have_one_guid};

use crate::store::PlainStore;
use store_model::{Firing, Sweep};

impl PlainStore {
    ghost use Rattle.store_plain.specs.PlainState.{state_of};

    // The place of the first callback, from one on, whose GUID is that of the PPI in a place.
    fn match_of(&self, sweep: &Sweep, ppi: u32, from: u32) -> Option<u32>
        requires ppi { ppi < length self.now.ppis.items }
        requires notes { sweep.now.note_to ≤ length self.now.callbacks.items }
        ensures note { IfSome result (λ note. note < sweep.now.note_to) }
        ensures found { IfSome result (λ note. first_firing (state_of self.now) sweep.now (pairs_with sweep.now from ppi)
            ≡ firing_at (state_of self.now) sweep.now (ppi, note)) }
        ensures fires { IfSome result (λ note. is_some (firing_at (state_of self.now) sweep.now (ppi, note)) ≡ true) }
        ensures none { IfNone result (first_firing (state_of self.now) sweep.now (pairs_with sweep.now from ppi) ≡ None) }
    {
        let place = self.ppis[ppi as usize].descriptor;
        'notes: for note in from..sweep.note_to {
            if self.have_one_guid(place, self.callbacks[note as usize].descriptor) {
                return Some(note);
            }
        }
        None
    }

    // The places of the first pair that fires.
    fn next_pair(&self, sweep: &Sweep) -> Option<(u32, u32)>
        requires { IsSweepOf (state_of self.now) sweep.now }
        ensures ppi { IfSome result (λ pair. pair.0 < sweep.now.ppi_to) }
        ensures note { IfSome result (λ pair. pair.1 < sweep.now.note_to) }
        ensures found { IfSome result (λ pair. next_match (state_of self.now) sweep.now ≡ firing_at (state_of self.now) sweep.now pair) }
        ensures none { IfNone result (next_match (state_of self.now) sweep.now ≡ None) }
    {
        let mut from = sweep.note_at;
        'ppis: for ppi in sweep.ppi_at..sweep.ppi_to {
            match self.match_of(sweep, ppi, from) {
                Some(note) => return Some((ppi, note)),
                None => from = sweep.note_from,
            }
        }
        None
    }

    // The first pair that fires now, the sweep then standing after it.
    #[tactic(auto, using(store_laws::proofs::Named::ppi_is_named))]
    pub(crate) fn next_firing(&self, sweep: &mut Sweep) -> Option<Firing>
        requires facts { IsStoreState (state_of self.now) }
        requires sweep { IsSweepOf (state_of self.now) sweep.old }
        ensures { IsMatch (next_match (state_of self.now) sweep.old) result sweep.new }
    {
        match self.next_pair(sweep) {
            Some((ppi, note)) => {
                sweep.ppi_at = ppi;
                sweep.note_at = note + 1;
                let ppi = self.ppis[ppi as usize].descriptor;
                let note = self.callbacks[note as usize].descriptor;
                Some(self.firing(ppi, note))
            }
            None => None,
        }
    }
}
