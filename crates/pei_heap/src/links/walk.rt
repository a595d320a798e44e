// Entries met one after another, by their nodes.
ghost use Rattle.std.specs.Prelude.{◌≡◌, ℕ};
ghost use Rattle.store_model.specs.{StoreState.StoreState, declared.store_handle.EntryList.EntryList};
ghost use Rattle.pei_heap.specs.HeapMemory.{IsHeapOf};
ghost use Rattle.pei_heap.specs.Walk.{IsMet, StandsAt, address_from};

use crate::links::node::{nth_address, read_node};
use crate::{Heap, word_in};
use phys_mem::PhysMem;
use store_laws::heap::nodes_read;
use store_laws::named_are_there;
use store_model::Entry;

/// An entry, and the address of the next one's node, or 0.
#[derive(Clone, Copy)]
pub(crate) struct Met {
    pub(crate) entry: Entry,
    pub(crate) next: u64,
}

// The entry whose node is at an address. None at 0.
pub(crate) fn entry_from(heap: &Heap, memory: &PhysMem, at: u64) -> Option<Met>
    requires { (s : StoreState) × (list : EntryList) × (place : ℕ) × IsHeapOf heap.now memory.now s × StandsAt s list place at }
    ensures { (s : StoreState) (list : EntryList) (place : ℕ) → IsHeapOf heap.now memory.now s → StandsAt s list place at
        → IsMet s list place result }
{
    named_are_there();
    nodes_read();
    if at == 0 {
        return None;
    }
    let bytes = heap.bytes(memory);
    let base = heap.span.base;
    let node = read_node(&bytes, base, at);
    let entry = Entry {
        node: at - base,
        descriptor: node.descriptor - base,
        by: node.by,
    };
    let next = word_in(&bytes, (at - base) as usize);
    Some(Met { entry, next })
}

// The address of the node in a place of a list, by its first node's address or 0. 0 past the last.
pub(crate) fn address_at(heap: &Heap, memory: &PhysMem, head: u64, place: u32) -> u64
    requires { (s : StoreState) × (list : EntryList) × IsHeapOf heap.now memory.now s × (head ≡ address_from s list 0) }
    ensures { (s : StoreState) (list : EntryList) → IsHeapOf heap.now memory.now s → head ≡ address_from s list 0
        → result ≡ address_from s list place }
{
    match nth_address(&heap.bytes(memory), heap.span.base, head, place) {
        Some(at) => at,
        None => 0,
    }
}
