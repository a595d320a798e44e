// The heap's bytes, one by one.
ghost use Rattle.std.specs.Prelude.{◌≡◌, ◌≤◌, ◌<◌, ◌+◌, ◌-◌, ◌++◌, length, option_map};
ghost use Rattle.pi_base.specs.Lists.{Each};
ghost use Rattle.store_model.specs.{StateFacts.IsStoreState, MemoryReading.heap_byte};
ghost use Rattle.store_model.specs.HeapImage.{header_bytes, body_bytes, hob_list, handoff_of, handoff_body, links_in, pending_links_in, links_at, node_bytes, descriptor_bytes, hobs_bytes};
ghost use Rattle.store_model.specs.StoreState.{handoff_len, header_len, hob_len};
ghost use Rattle.store_plain.specs.Peeking.{byte_of, link_words, pages_bytes, IsNear, IsPendingNear};
ghost use Rattle.store_plain.specs.Words.{words_bytes};

use crate::length::{HANDOFF_LEN, HEADER_LEN};
use crate::plain_hob::{PlainHob, Role};
use crate::store::PlainStore;
use crate::word_bytes::{descriptor_words, long_bytes, put_words, short_bytes};
use hob_codec::kind::{END, HANDOFF};
use hob_codec::{Handoff, Hob, encode_into};
use pi_base::{Guid, put_u16};
use store_model::{AllocationBody, DescriptorBody, Entry, Pending};

// The byte in a place, and 0 past the last.
fn byte_in(bytes: &[u8], place: usize) -> u8
    ensures { result ≡ byte_of bytes.now place }
{
    if place < bytes.len() { bytes[place] } else { 0 }
}

// A HOB's header.
fn header(kind: u16, len: u16) -> [u8; 8]
    ensures { result ≡ header_bytes kind len }
{
    let mut bytes = [0u8; 8];
    put_u16(&mut bytes, 0, kind);
    put_u16(&mut bytes, 2, len);
    bytes
}

// A byte of a HOB of pages, after its header.
fn allocation_byte(base: u64, allocation: &AllocationBody, place: usize) -> u8
    ensures { result ≡ byte_of (pages_bytes base allocation.now) place }
{
    let hob = Hob::Allocation {
        name: Guid([0; 16]),
        base,
        length: allocation.len,
        memory_type: allocation.memory_type,
    };
    let mut bytes = [0u8; 48];
    encode_into(&hob, &mut bytes);
    let (_, body) = bytes.as_slice().split_at(HEADER_LEN as usize);
    byte_in(body, place)
}

// The bytes of four numbers.
fn node_array(words: &[u64; 4]) -> [u8; 32]
    ensures { result ≡ words_bytes words.now }
{
    let mut bytes = [0u8; 32];
    put_words(&mut bytes, words);
    bytes
}

// The numbers of the node at a place, if one of these entries has it.
fn links_in(base: u64, place: u64, entries: &[Entry]) -> Option<[u64; 4]>
    requires { Each (IsNear base) entries.now }
    ensures { result ≡ option_map link_words (links_in base place entries.now) }
{
    let mut rest = entries;
    'entries: while let [entry, after @ ..] = rest {
        if entry.node == place {
            let next = match after {
                [] => 0,
                [later, ..] => base + later.node,
            };
            return Some([next, base + entry.descriptor, 0, u64::from(entry.by)]);
        }
        rest = after;
    }
    None
}

// The numbers of the node at a place, if one of these queued pairs has it.
fn pending_links_in(base: u64, place: u64, pendings: &[Pending]) -> Option<[u64; 4]>
    requires { Each (IsPendingNear base) pendings.now }
    ensures { result ≡ option_map link_words (pending_links_in base place pendings.now) }
{
    let mut rest = pendings;
    'pendings: while let [pending, after @ ..] = rest {
        if pending.node == place {
            let next = match after {
                [] => 0,
                [later, ..] => base + later.node,
            };
            return Some([
                next,
                base + pending.descriptor,
                base + pending.ppi,
                u64::from(pending.by),
            ]);
        }
        rest = after;
    }
    None
}

impl PlainStore {
    ghost use Rattle.store_plain.specs.PlainState.{state_of};

    // The numbers of the node at a place, if one of the lists has it.
    fn links_at(&self, place: u64) -> Option<[u64; 4]>
        requires { IsStoreState (state_of self.now) }
        ensures { result ≡ option_map link_words (links_at (state_of self.now) place) }
    {
        if let Some(words) = links_in(self.base, place, self.ppis.as_slice()) {
            return Some(words);
        }
        if let Some(words) = links_in(self.base, place, self.callbacks.as_slice()) {
            return Some(words);
        }
        if let Some(words) = links_in(self.base, place, self.dispatches.as_slice()) {
            return Some(words);
        }
        pending_links_in(self.base, place, self.pendings.as_slice())
    }

    // A byte of the node at a place.
    fn node_byte(&self, place: u64, at: usize) -> u8
        requires { IsStoreState (state_of self.now) }
        ensures { result ≡ byte_of (node_bytes (state_of self.now) place) at }
    {
        match self.links_at(place) {
            Some(words) => byte_in(node_array(&words).as_slice(), at),
            None => byte_in([0u8; 32].as_slice(), at),
        }
    }

    // A byte of the descriptor at a place.
    fn descriptor_byte(&self, place: u64, d: &DescriptorBody, at: usize) -> u8
        requires { place ≤ self.now.end }
        ensures { result ≡ byte_of (descriptor_bytes self.now.base place d.now) at }
    {
        let words = descriptor_words(self.base, place, d);
        match d.stands {
            None => byte_in(long_bytes(&words, &d.guid.0).as_slice(), at),
            Some(_) => byte_in(short_bytes(&words).as_slice(), at),
        }
    }

    // A byte of a body at a place.
    fn body_byte(&self, place: u64, hob: &PlainHob, at: usize) -> u8
        requires facts { IsStoreState (state_of self.now) }
        requires place { place ≤ self.now.end }
        ensures { result ≡ byte_of (body_bytes (state_of self.now) place hob.now.body) at }
    {
        match hob.role() {
            Role::Bytes(bytes) => byte_in(bytes, at),
            Role::Descriptor(d) => self.descriptor_byte(place, &d, at),
            Role::Node => self.node_byte(place, at),
            Role::Allocation(a) => allocation_byte(self.page_end.saturating_sub(a.below), &a, at),
        }
    }

    // A byte of a HOB whose body is at a place.
    fn hob_byte(&self, place: u64, hob: &PlainHob, at: usize) -> u8
        requires facts { IsStoreState (state_of self.now) }
        requires place { place ≤ self.now.end }
        ensures { result ≡ byte_of (header_bytes hob.now.kind (hob_len hob.now) ++ body_bytes (state_of self.now) place hob.now.body) at }
    {
        let header = header(hob.kind(), hob.len());
        if at < header.len() {
            byte_in(header.as_slice(), at)
        } else {
            self.body_byte(place, hob, at - header.len())
        }
    }

    // A byte of the HOBs after the hand-off HOB, and of the end HOB.
    fn hobs_byte(&self, place: u64) -> u8
        requires facts { IsStoreState (state_of self.now) }
        requires place { handoff_len ≤ place }
        ensures { result ≡ byte_of (hobs_bytes (state_of self.now) handoff_len self.now.hobs.items ++ header_bytes END header_len)
            (place - handoff_len) }
    {
        let mut at = HANDOFF_LEN;
        'hobs: for hob in self.hobs.as_slice() {
            let next = at + hob.len() as u64;
            if place < next {
                return self.hob_byte(at + HEADER_LEN, hob, (place - at) as usize);
            }
            at = next;
        }
        byte_in(
            header(END, HEADER_LEN as u16).as_slice(),
            (place - at) as usize,
        )
    }

    // What the hand-off HOB says.
    fn handoff(&self) -> Handoff
        ensures { result ≡ handoff_of (state_of self.now) }
    {
        let top = self.base + self.len;
        let end = self.base + self.end;
        Handoff {
            boot_mode: self.boot_mode,
            top,
            bottom: self.base,
            free_top: top - if self.moved { self.taken } else { 0 },
            free_bottom: end + HEADER_LEN,
            end,
        }
    }

    // A byte of the hand-off HOB.
    fn handoff_byte(&self, at: usize) -> u8
        ensures { result ≡ byte_of (header_bytes HANDOFF handoff_len ++ handoff_body (state_of self.now)) at }
    {
        let mut bytes = [0u8; 56];
        encode_into(&Hob::Handoff(self.handoff()), &mut bytes);
        byte_in(bytes.as_slice(), at)
    }

    // A byte of the HOB list.
    fn list_byte(&self, place: u64) -> u8
        requires { IsStoreState (state_of self.now) }
        ensures { result ≡ byte_of (hob_list (state_of self.now)) place }
    {
        if place < HANDOFF_LEN {
            self.handoff_byte(place as usize)
        } else {
            self.hobs_byte(place)
        }
    }

    // The byte at an address: the heap's, and 0 outside it.
    pub(crate) fn heap_byte(&self, address: u64) -> u8
        requires { IsStoreState (state_of self.now) }
        ensures { result ≡ heap_byte (state_of self.now) address }
    {
        if address >= self.base && address - self.base < self.len {
            self.list_byte(address - self.base)
        } else {
            0
        }
    }
}
