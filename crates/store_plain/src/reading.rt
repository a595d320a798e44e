// What can be read of a store's lists and of its HOBs.
ghost use Rattle.std.specs.Prelude.{◌≡◌, true, IfOk, slice_get, slice_index, length, ◌<◌, ◌+◌, is_some};
ghost use Rattle.pi_base.specs.Field.{little_number};
ghost use Rattle.store_model.specs.{HeapImage.body_bytes, StateFacts.IsStoreState};
ghost use Rattle.store_plain.specs.PlainBody.{IsBytes};
ghost use Rattle.store_model.specs.{Service.Descriptor.descriptor_at, Service.Descriptor.number_at, Service.Install.has_ppi};
ghost use Rattle.store_model.specs.Service.Reading.{nth_ppi, ppi_at, note_at, pending_at, hob_at, fv_bases, memory_due, notes_of};
ghost use Rattle.store_model.specs.{Service.Sweep.firing_of, declared.limits.TheConstants.NOTE_NUMBERS};

use crate::length::HANDOFF_LEN;
use crate::plain_hob::{PlainHob, Role};
use crate::store::PlainStore;
use hob_codec::kind::{HANDOFF, VOLUME};
use pi_base::{Guid, OutOfMemory, Seq, u64_at};
use store_model::{Desc, DescKind, Entry, Firing, HobSpan, Pending};

impl PlainStore {
    ghost use Rattle.store_plain.specs.PlainState.{state_of};

    // The n-th PPI of a GUID, and its value.
    pub(crate) fn find_ppi(&self, guid: &Guid, n: u16) -> Option<(Desc, u64)>
        ensures { result ≡ nth_ppi (state_of self.now) guid.now n }
    {
        let mut left = n;
        'ppis: for entry in self.ppis.as_slice() {
            if self.has_guid_at(entry.descriptor, guid) {
                if left == 0 {
                    let offset = entry.descriptor;
                    return Some((Desc { offset }, self.number_at(offset)));
                }
                left -= 1;
            }
        }
        None
    }

    // Whether a PPI of the GUID is installed.
    pub(crate) fn has_ppi(&self, guid: &Guid) -> bool
        ensures { result ≡ has_ppi (state_of self.now) guid.now }
    {
        'ppis: for entry in self.ppis.as_slice() {
            if self.has_guid_at(entry.descriptor, guid) {
                return true;
            }
        }
        false
    }

    // The PPI in a place.
    fn ppi_in(&self, place: u32) -> Option<Entry>
        ensures { result ≡ slice_get self.now.ppis.items place }
    {
        self.ppis.as_slice().get(place as usize).copied()
    }

    // GUID, value and maker of the PPI in a place.
    pub(crate) fn tell_ppi(&self, place: u32) -> Option<(Guid, u64, u32)>
        requires { IsStoreState (state_of self.now) }
        ensures { result ≡ ppi_at (state_of self.now) place }
    {
        match self.ppi_in(place) {
            Some(entry) => Some((
                self.guid_at(entry.descriptor),
                self.number_at(entry.descriptor),
                entry.by,
            )),
            None => None,
        }
    }

    // The queued pair in a place.
    pub(crate) fn pending_in(&self, place: u32) -> Option<Pending>
        ensures { result ≡ slice_get self.now.pendings.items place }
    {
        self.pendings.as_slice().get(place as usize).copied()
    }

    // The notification in a place of its kind's list.
    fn note_in(&self, kind: DescKind, place: u32) -> Option<Entry>
        ensures { result ≡ slice_get (notes_of (state_of self.now) kind) place }
    {
        match kind {
            DescKind::Ppi => None,
            DescKind::Callback => self.callbacks.as_slice().get(place as usize).copied(),
            DescKind::Dispatch => self.dispatches.as_slice().get(place as usize).copied(),
        }
    }

    // The entry of a notification.
    pub(crate) fn entry_at(&self, place: u64) -> u32
        requires { number_at (state_of self.now) place < NOTE_NUMBERS }
        ensures { result ≡ number_at (state_of self.now) place }
    {
        self.number_at(place) as u32
    }

    // GUID and entry of the notification in a place.
    #[tactic(auto, using(store_laws::proofs::Named::note_is_named, store_laws::proofs::Named::note_is_entry))]
    pub(crate) fn tell_note(&self, kind: DescKind, place: u32) -> Option<(Guid, u32)>
        requires { IsStoreState (state_of self.now) }
        ensures { result ≡ note_at (state_of self.now) kind place }
    {
        match self.note_in(kind, place) {
            Some(entry) => Some((
                self.guid_at(entry.descriptor),
                self.entry_at(entry.descriptor),
            )),
            None => None,
        }
    }

    // The PPI's GUID, and the notification's entry, of the queued pair in a place.
    #[tactic(auto, using(store_laws::proofs::Named::pending_is_named, store_laws::proofs::Named::pending_is_entry))]
    pub(crate) fn tell_pending(&self, place: u32) -> Option<(Guid, u32)>
        requires { IsStoreState (state_of self.now) }
        ensures { result ≡ pending_at (state_of self.now) place }
    {
        match self.pending_in(place) {
            Some(pending) => Some((self.guid_at(pending.ppi), self.entry_at(pending.descriptor))),
            None => None,
        }
    }

    // What a notification receives.
    pub(crate) fn firing(&self, ppi: u64, note: u64) -> Firing
        requires named { is_some (descriptor_at (state_of self.now) ppi) ≡ true }
        requires entry { number_at (state_of self.now) note < NOTE_NUMBERS }
        ensures { result ≡ firing_of (state_of self.now) ppi note }
    {
        Firing {
            entry: self.entry_at(note),
            ppi: Desc { offset: ppi },
            guid: self.guid_at(ppi),
            value: self.number_at(ppi),
        }
    }

    // Whether memory was planned and not yet moved to.
    pub(crate) fn is_due(&self) -> bool
        ensures { result ≡ memory_due (state_of self.now) }
    {
        self.planned.is_some() && !self.moved
    }

    // The HOB at an offset of the heap.
    #[tactic(auto, using(crate::proofs::Rest::part_of_rest))]
    pub(crate) fn span_at(&self, offset: u64) -> Option<HobSpan>
        ensures { result ≡ hob_at (state_of self.now) offset }
    {
        if offset == 0 {
            return Some(HobSpan {
                kind: HANDOFF,
                length: HANDOFF_LEN as u16,
                next: HANDOFF_LEN,
            });
        }
        let mut at = HANDOFF_LEN;
        'hobs: for hob in self.hobs.as_slice() {
            let length = hob.len();
            let next = at + length as u64;
            if at == offset {
                let kind = hob.kind();
                return Some(HobSpan { kind, length, next });
            }
            at = next;
        }
        None
    }

    // The base of the volume that a HOB reports.
    fn volume_base(&self, hob: &PlainHob) -> u64
        requires { IsBytes hob.now.body }
        ensures { result ≡ little_number 8 (body_bytes (state_of self.now) 0 hob.now.body) }
    {
        match hob.role() {
            Role::Bytes(bytes) => first_number(bytes),
            Role::Descriptor(_) => unreachable!(),
            Role::Node => unreachable!(),
            Role::Allocation(_) => unreachable!(),
        }
    }

    // The bases of the volumes that HOBs report.
    pub(crate) fn volume_bases(&self) -> Result<Seq<u64>, OutOfMemory>
        requires { IsStoreState (state_of self.now) }
        ensures { IfOk result (λ bases. bases ≡ fv_bases (state_of self.now)) }
    {
        let mut bases = Seq::new(*self.hobs.allocator());
        'hobs: for hob in self.hobs.as_slice() {
            if hob.kind() == VOLUME {
                bases.push(self.volume_base(hob))?;
            }
        }
        Ok(bases)
    }
}

// The byte in a place, and 0 past the last.
fn byte_or_zero(bytes: &[u8], place: usize) -> u8
    ensures { result ≡ slice_index bytes.now place }
{
    if place < bytes.len() { bytes[place] } else { 0 }
}

// The number in the first eight bytes, and zeros after them.
fn first_number(bytes: &[u8]) -> u64
    ensures { result ≡ little_number 8 bytes.now }
{
    let word = [
        byte_or_zero(bytes, 0),
        byte_or_zero(bytes, 1),
        byte_or_zero(bytes, 2),
        byte_or_zero(bytes, 3),
        byte_or_zero(bytes, 4),
        byte_or_zero(bytes, 5),
        byte_or_zero(bytes, 6),
        byte_or_zero(bytes, 7),
    ];
    u64_at(word.as_slice(), 0)
}
