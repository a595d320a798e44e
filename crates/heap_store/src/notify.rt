// Notifications are registered.
ghost use Rattle.std.specs.Prelude.{◌≡◌, ◌≤◌, false, length, fold};
ghost use Rattle.std.specs.List.{list_any};
ghost use Rattle.store_model.specs.{StoreState.StoreState, StateFacts.IsDesc, StoreCall.AreDescs, StoreCall.AreFew};
ghost use Rattle.store_model.specs.Service.{And, OfEach, Performs, Present};
ghost use Rattle.store_model.specs.Service.Descriptor.{is_callback, is_ppi, kind_at};
ghost use Rattle.store_model.specs.Service.Notify.{new_callbacks, notify, notify_sweep, with_note};
ghost use Rattle.pei_heap.specs.Linked.{IsLinked};
ghost use Rattle.heap_store.specs.Made.{CanMakeNotes, HaveNewPairs, IsMade, note_list as list_of};

use crate::store::HeapStore;
use pei_heap::Heap;
use pei_heap::links::{
    Heads, NewEntry, count_new_pairs, kind_of, pairs_stay, push, push_new_pairs,
};
use phys_mem::PhysMem;
use store_laws::{entries_are_told, named_are_there, steps_keep_facts};
use store_model::{Desc, DescKind, EntryList, StoreFault, Sweep};

// The list of the notifications of a kind.
fn note_list(kind: DescKind) -> EntryList
    ensures { result ≡ list_of kind }
{
    match kind {
        DescKind::Callback => EntryList::Callbacks,
        DescKind::Ppi | DescKind::Dispatch => EntryList::Dispatches,
    }
}

// Makes notifications behind the others of their kinds, for which there is room.
fn push_notes(heap: &Heap, memory: &mut PhysMem, heads: &mut Heads, list: &[Desc], by: u32)
    requires { (s : StoreState) × IsLinked heap.now memory.old heads.old s × CanMakeNotes s list.now }
    ensures { (s : StoreState) → IsLinked heap.now memory.old heads.old s → CanMakeNotes s list.now
        → IsMade heap.now memory.new heads.new s (fold (with_note by) s list.now) (length list.now) }
{
    named_are_there();
    steps_keep_facts();
    'descs: for d in list {
        let notes = note_list(kind_of(heap, memory, *d));
        let entry = NewEntry {
            descriptor: d.offset,
            ppi: 0,
            by,
        };
        push(heap, memory, heads, notes, entry);
    }
}

impl HeapStore {
    ghost use Rattle.heap_store.specs.HeapState.{StandsFor};

    // Whether one of a list is a PPI.
    fn any_ppi(&self, list: &[Desc]) -> bool
        requires { Present (StandsFor self.now) (AreDescs list.now) }
        ensures { OfEach (StandsFor self.now) (AreDescs list.now)
            (λ s. result ≡ list_any (λ d. is_ppi (kind_at s d.offset)) list.now) }
    {
        'descs: for d in list {
            if self.is_ppi(*d) {
                return true;
            }
        }
        false
    }

    /// Whether a descriptor is a callback's.
    pub fn is_callback(&self, d: Desc) -> bool
        requires { Present (StandsFor self.now) (λ s. IsDesc s d) }
        ensures { OfEach (StandsFor self.now) (λ s. IsDesc s d) (λ s. result ≡ is_callback (kind_at s d.offset)) }
    {
        match kind_of(&self.heap, &self.memory, d) {
            DescKind::Ppi => false,
            DescKind::Callback => true,
            DescKind::Dispatch => false,
        }
    }

    // How many of a list are callbacks.
    fn callbacks_in(&self, list: &[Desc]) -> u32
        requires state { Present (StandsFor self.now) (AreDescs list.now) }
        requires few { length list.now ≤ 8 }
        ensures count { OfEach (StandsFor self.now) (AreDescs list.now) (λ s. result ≡ length (new_callbacks s list.now)) }
        ensures few { result ≤ 8 }
    {
        let mut count = 0;
        'descs: for d in list {
            if self.is_callback(*d) {
                count += 1;
            }
        }
        count
    }

    // All PPIs with the new callbacks.
    fn sweep_over(&self, list: &[Desc]) -> Sweep
        requires state { Present (StandsFor self.now) (AreDescs list.now) }
        requires few { AreFew list.now }
        ensures { OfEach (StandsFor self.now) (AreDescs list.now) (λ s. result ≡ notify_sweep s list.now) }
    {
        entries_are_told();
        let notes = self.heads.notes;
        Sweep {
            ppi_to: self.heads.ppis,
            note_from: notes,
            note_to: notes + self.callbacks_in(list),
            ppi_at: 0,
            note_at: notes,
        }
    }

    /// Registers notifications, in the order of the list, that make so many pairs with the PPIs. Where they make none, no list is walked.
    pub fn register_counted(
        &mut self,
        list: &[Desc],
        by: u32,
        pairs: u64,
    ) -> Result<Sweep, StoreFault>
        requires state { Present (StandsFor self.old) (HaveNewPairs list.now pairs) }
        requires few { AreFew list.now }
        ensures { Performs false (And (StandsFor self.old) (HaveNewPairs list.now pairs)) (StandsFor self.new)
            (λ s. notify s list.now by) result }
    {
        pairs_stay();
        if self.any_ppi(list) {
            return Err(StoreFault::Bad);
        }
        if self.is_full(list.len() as u64, pairs) {
            return Err(StoreFault::Full);
        }
        let sweep = self.sweep_over(list);
        push_notes(&self.heap, &mut self.memory, &mut self.heads, list, by);
        push_new_pairs(
            &self.heap,
            &mut self.memory,
            &mut self.heads,
            list,
            by,
            pairs,
        );
        Ok(sweep)
    }

    /// Registers notifications, in the order of the list.
    pub fn register(&mut self, list: &[Desc], by: u32) -> Result<Sweep, StoreFault>
        requires state { Present (StandsFor self.old) (AreDescs list.now) }
        requires few { AreFew list.now }
        ensures { Performs false (And (StandsFor self.old) (AreDescs list.now)) (StandsFor self.new)
            (λ s. notify s list.now by) result }
    {
        let pairs = count_new_pairs(&self.heap, &self.memory, &self.heads, list);
        self.register_counted(list, by, pairs)
    }
}
