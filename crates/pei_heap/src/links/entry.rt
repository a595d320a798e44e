// An entry that is made, and the bytes of its node.
ghost use Rattle.std.specs.Prelude.{◌≡◌, ◌<◌, ◌+◌, ◌^◌, Some};
ghost use Rattle.store_model.specs.HeapImage.{links_bytes};
ghost use Rattle.pei_heap.specs.NewEntry.{second_of};

use pi_base::put_u64;
use store_model::EntryList;

/// The descriptor and the module of a new entry. Offsets count from the heap's base.
#[derive(Clone, Copy)]
pub struct NewEntry {
    /// Its descriptor; of a queued pair the dispatch notification's.
    pub descriptor: u64,
    /// The PPI's descriptor of a queued pair. The other lists don't look at it.
    pub ppi: u64,
    /// The number of the module whose script makes it.
    pub by: u32,
}

// The bytes of a node that is the last of its list, by addresses.
pub(crate) fn node_text(descriptor: u64, second: u64, by: u32) -> [u8; 32]
    ensures text { result ≡ links_bytes (Some (record { next = 0; descriptor = descriptor; second = second; number = by })) }
    ensures by { by < 2 ^ 32 }
{
    let mut text = [0u8; 32];
    put_u64(text.as_mut_slice(), 8, descriptor);
    put_u64(text.as_mut_slice(), 16, second);
    put_u64(text.as_mut_slice(), 24, by as u64);
    text
}

impl NewEntry {
    // The address of the second descriptor that its node names, or 0.
    pub(crate) fn second(&self, list: EntryList, base: u64) -> u64
        requires { second_of list base self.now < 2 ^ 64 }
        ensures { result ≡ second_of list base self.now }
    {
        match list {
            EntryList::Ppis | EntryList::Callbacks | EntryList::Dispatches => 0,
            EntryList::Pendings => base + self.ppi,
        }
    }
}
