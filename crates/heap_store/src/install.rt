// PPIs are installed, and one is put in the place of another.
ghost use Rattle.std.specs.Prelude.{◌≡◌, ◌+◌, ◌<◌, ◌^◌, false, nat_lt, length, fold};
ghost use Rattle.std.specs.List.{list_all};
ghost use Rattle.store_model.specs.{StoreState.StoreState, StoreState.free, Service.Descriptor.is_ppi, Service.Descriptor.kind_at};
ghost use Rattle.store_model.specs.Service.{And, OfEach, Performs, Present};
ghost use Rattle.store_model.specs.Service.Install.{install, install_sweep, node_need, place_of, reinstall, reinstall_sweep, with_ppi};
ghost use Rattle.store_model.specs.{StateFacts.IsDesc, declared.store_handle.Desc.Desc as OfDesc};
ghost use Rattle.store_model.specs.StoreCall.{Anything, AreDescs, AreFew};
ghost use Rattle.pei_heap.specs.{Linked.IsLinked, Replaced.IsFound};
ghost use Rattle.heap_store.specs.Made.{CanMakePpis, HaveFound, HavePairs, IsMade};

use crate::store::HeapStore;
use hob_codec::HEADER_LEN;
use pei_heap::Heap;
use pei_heap::links::{
    Heads, NewEntry, PpiFound, count_pairs, find_ppi, kind_of, pairs_stay, push, push_pairs, rename,
};
use phys_mem::PhysMem;
use store_laws::{entries_are_told, steps_keep_facts};
use store_model::{Desc, DescKind, EntryList, NODE_LEN, StoreFault, Sweep};

// The bytes of a node, with its header.
pub(crate) const NODE_NEED: u64 = NODE_LEN + HEADER_LEN as u64;

// Makes PPIs behind the others, for which there is room.
fn push_ppis(heap: &Heap, memory: &mut PhysMem, heads: &mut Heads, list: &[Desc], by: u32)
    requires { (s : StoreState) × IsLinked heap.now memory.old heads.old s × CanMakePpis s list.now }
    ensures { (s : StoreState) → IsLinked heap.now memory.old heads.old s → CanMakePpis s list.now
        → IsMade heap.now memory.new heads.new s (fold (with_ppi by) s list.now) (length list.now) }
{
    steps_keep_facts();
    'descs: for d in list {
        let entry = NewEntry {
            descriptor: d.offset,
            ppi: 0,
            by,
        };
        push(heap, memory, heads, EntryList::Ppis, entry);
    }
}

impl HeapStore {
    ghost use Rattle.heap_store.specs.HeapState.{StandsFor};

    // Whether a descriptor is a PPI's.
    pub(crate) fn is_ppi(&self, d: Desc) -> bool
        requires { Present (StandsFor self.now) (λ s. IsDesc s d) }
        ensures { OfEach (StandsFor self.now) (λ s. IsDesc s d) (λ s. result ≡ is_ppi (kind_at s d.offset)) }
    {
        match kind_of(&self.heap, &self.memory, d) {
            DescKind::Ppi => true,
            DescKind::Callback => false,
            DescKind::Dispatch => false,
        }
    }

    // Whether all of a list are PPIs.
    fn are_ppis(&self, list: &[Desc]) -> bool
        requires { Present (StandsFor self.now) (AreDescs list.now) }
        ensures { OfEach (StandsFor self.now) (AreDescs list.now)
            (λ s. result ≡ list_all (λ d. is_ppi (kind_at s d.offset)) list.now) }
    {
        'descs: for d in list {
            if !self.is_ppi(*d) {
                return false;
            }
        }
        true
    }

    // Whether so many entries and pairs have no room.
    pub(crate) fn is_full(&self, entries: u64, pairs: u64) -> bool
        requires { Present (StandsFor self.now) Anything }
        ensures { OfEach (StandsFor self.now) Anything
            (λ s. result ≡ nat_lt (free s) (node_need entries + node_need pairs)) }
    {
        let nodes = self.heap.free(&self.memory) / NODE_NEED;
        pairs > nodes || entries > nodes - pairs
    }

    // The new PPIs with all callbacks.
    fn sweep_behind(&self, list: &[Desc]) -> Sweep
        requires state { Present (StandsFor self.now) Anything }
        requires few { AreFew list.now }
        ensures { OfEach (StandsFor self.now) Anything (λ s. result ≡ install_sweep s list.now) }
    {
        entries_are_told();
        Sweep {
            ppi_to: self.heads.ppis + list.len() as u32,
            note_from: 0,
            note_to: self.heads.notes,
            ppi_at: self.heads.ppis,
            note_at: 0,
        }
    }

    /// Installs PPIs, in the order of the list, that make so many pairs with the dispatch notifications. Where they make none, no list is walked.
    pub fn install_counted(
        &mut self,
        list: &[Desc],
        by: u32,
        pairs: u64,
    ) -> Result<Sweep, StoreFault>
        requires state { Present (StandsFor self.old) (HavePairs list.now pairs) }
        requires few { AreFew list.now }
        ensures { Performs false (And (StandsFor self.old) (HavePairs list.now pairs)) (StandsFor self.new)
            (λ s. install s list.now by) result }
    {
        pairs_stay();
        if !self.are_ppis(list) {
            return Err(StoreFault::Bad);
        }
        if self.is_full(list.len() as u64, pairs) {
            return Err(StoreFault::Full);
        }
        let sweep = self.sweep_behind(list);
        push_ppis(&self.heap, &mut self.memory, &mut self.heads, list, by);
        push_pairs(
            &self.heap,
            &mut self.memory,
            &mut self.heads,
            list,
            by,
            pairs,
        );
        Ok(sweep)
    }

    /// Installs PPIs, in the order of the list.
    pub fn install_ppis(&mut self, list: &[Desc], by: u32) -> Result<Sweep, StoreFault>
        requires state { Present (StandsFor self.old) (AreDescs list.now) }
        requires few { AreFew list.now }
        ensures { Performs false (And (StandsFor self.old) (AreDescs list.now)) (StandsFor self.new)
            (λ s. install s list.now by) result }
    {
        let pairs = count_pairs(&self.heap, &self.memory, &self.heads, list);
        self.install_counted(list, by, pairs)
    }

    // A PPI that is found with all callbacks.
    fn sweep_at(&self, found: PpiFound) -> Sweep
        requires { found.place + 1 < 2 ^ 32 }
        ensures place { (s : StoreState) (old : OfDesc) → StandsFor self.now s → found.place ≡ place_of s.ppis old.offset
            → result ≡ reinstall_sweep s old }
    {
        Sweep {
            ppi_to: found.place + 1,
            note_from: 0,
            note_to: self.heads.notes,
            ppi_at: found.place,
            note_at: 0,
        }
    }

    /// Puts a PPI in the place of the first that names another descriptor, which the caller found. The list of PPIs is not walked.
    pub fn reinstall_found(
        &mut self,
        found: Option<PpiFound>,
        old: Desc,
        new: Desc,
        by: u32,
    ) -> Result<Sweep, StoreFault>
        requires { Present (StandsFor self.old) (HaveFound old new found) }
        ensures { Performs false (And (StandsFor self.old) (HaveFound old new found)) (StandsFor self.new)
            (λ s. reinstall s old new by) result }
    {
        entries_are_told();
        if !self.is_ppi(new) {
            return Err(StoreFault::Bad);
        }
        let found = match found {
            Some(found) => found,
            None => return Err(StoreFault::Missing),
        };
        let news = [new];
        let list = news.as_slice();
        let pairs = count_pairs(&self.heap, &self.memory, &self.heads, list);
        if self.is_full(0, pairs) {
            return Err(StoreFault::Full);
        }
        let sweep = self.sweep_at(found);
        rename(&self.heap, &mut self.memory, &self.heads, found, new);
        push_pairs(
            &self.heap,
            &mut self.memory,
            &mut self.heads,
            list,
            by,
            pairs,
        );
        Ok(sweep)
    }

    /// The first PPI that names a descriptor, found by walking the list. None where none names it.
    pub fn walk_to(&self, d: Desc) -> Option<PpiFound>
        requires { Present (StandsFor self.now) Anything }
        ensures { OfEach (StandsFor self.now) Anything (λ s. IsFound s d result) }
    {
        find_ppi(&self.heap, &self.memory, &self.heads, d)
    }
}
