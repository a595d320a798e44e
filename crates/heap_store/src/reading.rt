// What a store tells of its lists.
ghost use Rattle.std.specs.Prelude.{◌≡◌};
ghost use Rattle.store_model.specs.{Service.OfEach, Service.Present, StoreCall.Anything, StoreCall.IsNodeIn};
ghost use Rattle.store_model.specs.Service.Reading as R;

use crate::store::HeapStore;
use pei_heap::links::{entry_behind, note_at, nth_ppi, pending_at, ppi_at};
use pi_base::Guid;
use store_model::{Desc, DescKind, EntryList, EntryTold};

impl HeapStore {
    ghost use Rattle.heap_store.specs.HeapState.{StandsFor};

    /// The n-th PPI of a GUID, and its value.
    pub fn find_ppi(&self, guid: &Guid, n: u16) -> Option<(Desc, u64)>
        requires { Present (StandsFor self.now) Anything }
        ensures { OfEach (StandsFor self.now) Anything (λ s. result ≡ R.nth_ppi s guid.now n) }
    {
        nth_ppi(&self.heap, &self.memory, &self.heads, guid, n)
    }

    /// GUID, value and maker of the PPI in a place.
    pub fn tell_ppi(&self, place: u32) -> Option<(Guid, u64, u32)>
        requires { Present (StandsFor self.now) Anything }
        ensures { OfEach (StandsFor self.now) Anything (λ s. result ≡ R.ppi_at s place) }
    {
        ppi_at(&self.heap, &self.memory, &self.heads, place)
    }

    /// GUID and entry of the notification in a place.
    pub fn tell_note(&self, kind: DescKind, place: u32) -> Option<(Guid, u32)>
        requires { Present (StandsFor self.now) Anything }
        ensures { OfEach (StandsFor self.now) Anything (λ s. result ≡ R.note_at s kind place) }
    {
        note_at(&self.heap, &self.memory, &self.heads, kind, place)
    }

    /// The PPI's GUID, and the notification's entry, of the queued pair in a place.
    pub fn tell_pending(&self, place: u32) -> Option<(Guid, u32)>
        requires { Present (StandsFor self.now) Anything }
        ensures { OfEach (StandsFor self.now) Anything (λ s. result ≡ R.pending_at s place) }
    {
        pending_at(&self.heap, &self.memory, &self.heads, place)
    }

    /// The entry of a list behind the one with a node, and the first where none is given.
    pub fn tell_behind(&self, list: EntryList, node: Option<u64>) -> Option<EntryTold>
        requires { Present (StandsFor self.now) (IsNodeIn list node) }
        ensures { OfEach (StandsFor self.now) (IsNodeIn list node) (λ s. result ≡ R.entry_behind s list node) }
    {
        entry_behind(&self.heap, &self.memory, &self.heads, list, node)
    }
}
