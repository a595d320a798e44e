// The nodes of a list, one after another.
ghost use Rattle.std.specs.Prelude.{◌≡◌, ◌+◌, ℕ, option_map, slice_get, Some};
ghost use Rattle.store_model.specs.{StoreState.StoreState, declared.store_handle.EntryList.EntryList};
ghost use Rattle.store_laws.specs.{Chain.IsHeaded, Items.Item, Items.items};
ghost use Rattle.pei_heap.specs.Node.{node_of};

use crate::word_in;
use phys_mem::Stretch;
use store_laws::heap::nodes_read;

/// The contents of a node. Its places are addresses.
#[derive(Clone, Copy)]
pub struct Node {
    /// The node's own address.
    pub at: u64,
    /// Its descriptor; of a queued pair the dispatch notification's.
    pub descriptor: u64,
    /// The PPI's descriptor of a queued pair, otherwise 0.
    pub second: u64,
    /// The number of the module whose script made it.
    pub by: u32,
}

// The offsets of a node's fields after the first, which is the next node's address.
pub(crate) const DESCRIPTOR_AT: usize = 8;

const SECOND_AT: usize = 16;

const NUMBER_AT: usize = 24;

// The address of the node at a place of a list, from 0. `head` is the first node's address, or 0. None past the last.
pub(crate) fn nth_address(heap: &Stretch<'_>, base: u64, head: u64, place: u32) -> Option<u64>
    requires { (s : StoreState) × (list : EntryList) × IsHeaded s list heap.now base head }
    ensures { (s : StoreState) (list : EntryList) → IsHeaded s list heap.now base head
        → result ≡ option_map (λ (item : Item). s.base + item.node) (slice_get (items s list) place) }
{
    nodes_read();
    let mut at = head;
    let mut left = place;
    'nodes: while at != 0 {
        if left == 0 {
            return Some(at);
        }
        left -= 1;
        at = word_in(heap, (at - base) as usize);
    }
    None
}

// The node of an item.
pub(crate) fn read_node(heap: &Stretch<'_>, base: u64, at: u64) -> Node
    requires { (s : StoreState) × (list : EntryList) × (place : ℕ) × (item : Item) × (head : ℕ)
        × IsHeaded s list heap.now base head × (slice_get (items s list) place ≡ Some item) × (at ≡ s.base + item.node) }
    ensures { (s : StoreState) (list : EntryList) (place : ℕ) (item : Item) (head : ℕ) → IsHeaded s list heap.now base head
        → slice_get (items s list) place ≡ Some item → at ≡ s.base + item.node → result ≡ node_of s.base item }
{
    nodes_read();
    let offset = (at - base) as usize;
    Node {
        at,
        descriptor: word_in(heap, offset + DESCRIPTOR_AT),
        second: word_in(heap, offset + SECOND_AT),
        by: word_in(heap, offset + NUMBER_AT) as u32,
    }
}

/// The node at a place of a list, from 0. `head` is the first node's address, or 0. None past the last.
pub fn nth_node(heap: &Stretch<'_>, base: u64, head: u64, place: u32) -> Option<Node>
    requires { (s : StoreState) × (list : EntryList) × IsHeaded s list heap.now base head }
    ensures { (s : StoreState) (list : EntryList) → IsHeaded s list heap.now base head
        → result ≡ option_map (node_of s.base) (slice_get (items s list) place) }
{
    match nth_address(heap, base, head, place) {
        Some(at) => Some(read_node(heap, base, at)),
        None => None,
    }
}
