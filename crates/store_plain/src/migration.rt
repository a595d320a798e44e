// The move to permanent memory.
ghost use Rattle.std.specs.Prelude.{◌≡◌, ◌≤◌, ◌<◌, ◌+◌, ◌==◌, ◌||◌, true, false, length, get_or, slice_set};
ghost use Rattle.store_model.specs.{declared.state.HobEntry.HobEntry, StateFacts.IsStoreState, StoreState.handoff_len, StoreState.range_of};
ghost use Rattle.std.specs.List.{list_any};
ghost use Rattle.store_model.specs.{StoreCall.Migrates, StoreCall.IsDue, Service.Descriptor.is_named, Service.Descriptor.descriptors};
ghost use Rattle.store_model.specs.Migration.{moved_number, moved_value, moved_hobs};

use crate::length::{HANDOFF_LEN, HEADER_LEN};
use crate::store::PlainStore;
use pi_base::Span;
use store_model::{DescKind, DescriptorBody, Entry};

// Whether one of these entries names the descriptor at a place.
fn names(entries: &[Entry], place: u64) -> bool
    ensures { result ≡ list_any (λ named. named == place) (descriptors entries.now) }
{
    'entries: for entry in entries {
        if entry.descriptor == place {
            return true;
        }
    }
    false
}

impl PlainStore {
    ghost use Rattle.store_plain.specs.PlainState.{state_of};
    ghost use Rattle.store_plain.specs.Moves.{FitsInto, SameLists, moved_hob};

    // Whether a queued pair names the descriptor at a place.
    fn is_pending(&self, place: u64) -> bool
        ensures { result ≡ list_any (λ pending. pending.descriptor == place || pending.ppi == place) self.now.pendings.items }
    {
        'pendings: for pending in self.pendings.as_slice() {
            if pending.descriptor == place || pending.ppi == place {
                return true;
            }
        }
        false
    }

    // Whether an entry or a queued pair names the descriptor at a place.
    #[tactic(auto, using(crate::proofs::Moves::named_by))]
    fn is_named(&self, place: u64) -> bool
        ensures { result ≡ is_named (state_of self.now) place }
    {
        names(self.ppis.as_slice(), place)
            || names(self.callbacks.as_slice(), place)
            || names(self.dispatches.as_slice(), place)
            || self.is_pending(place)
    }

    // A number after the move.
    fn moved_number(&self, to: Span, number: u64) -> u64
        requires { FitsInto self.now to }
        ensures { result ≡ moved_number (state_of self.now) (range_of to) number }
    {
        if number >= self.base && number < self.base + self.len {
            number - self.base + to.base
        } else if number >= self.page_end - self.region && number < self.page_end {
            to.base + to.len - (self.page_end - number)
        } else {
            number
        }
    }

    // The number of a descriptor after the move.
    fn moved_value(&self, to: Span, d: &DescriptorBody) -> u64
        requires { FitsInto self.now to }
        ensures { result ≡ moved_value (state_of self.now) (range_of to) d.now.kind d.now.number }
    {
        match d.kind {
            DescKind::Ppi => self.moved_number(to, d.number),
            DescKind::Callback => d.number,
            DescKind::Dispatch => d.number,
        }
    }

    // The HOB with a number, whose body is at a place, moves.
    fn move_hob(&mut self, index: usize, place: u64, to: Span)
        requires index { index < length self.old.hobs.items }
        requires place { place ≤ self.old.end }
        requires fits { FitsInto self.old to }
        ensures hobs { (d : HobEntry) → self.new.hobs.items
            ≡ slice_set self.old.hobs.items index (moved_hob (state_of self.old) (range_of to) place (get_or self.old.hobs.items index d)) }
        ensures rest { SameLists self.old self.new }
    {
        let d = match self.hobs[index].descriptor() {
            Some(d) => d,
            None => return,
        };
        if self.is_named(place) {
            let number = self.moved_value(to, &d);
            self.hobs[index].renumber(number);
        } else {
            self.hobs[index].forget(self.base, place);
        }
    }

    // All HOBs move.
    fn move_hobs(&mut self, to: Span)
        requires { FitsInto self.old to }
        ensures hobs { self.new.hobs.items ≡ moved_hobs (state_of self.old) (range_of to) handoff_len self.old.hobs.items }
        ensures rest { SameLists self.old self.new }
    {
        let mut at = HANDOFF_LEN;
        'hobs: for index in 0..self.hobs.len() {
            let place = at + HEADER_LEN;
            at += self.hobs[index].len() as u64;
            self.move_hob(index, place, to);
        }
    }

    // Moves to permanent memory, and answers the old base and the new.
    pub(crate) fn move_to_memory(&mut self) -> (u64, u64)
        requires facts { IsStoreState (state_of self.old) }
        requires due { IsDue (state_of self.old) }
        ensures { Migrates (state_of self.old) result (state_of self.new) }
    {
        let to = match self.planned {
            Some(to) => to,
            None => unreachable!(),
        };
        let from = self.base;
        self.move_hobs(to);
        self.base = to.base;
        self.len = to.len;
        self.page_end = to.base + to.len;
        self.moved = true;
        (from, to.base)
    }
}
