// An entry is made after the others of its list.
ghost use Rattle.std.specs.Prelude.{◌≢◌, ◌≤◌, ◌+◌, ℕ, List};
ghost use Rattle.store_model.specs.StoreState.{StoreState};
ghost use Rattle.store_laws.specs.{Heads.named_at, Mapped.Layout};
ghost use Rattle.pei_heap.specs.{HeapMemory.Holds, Linked.IsLinked, NewEntry.IsReady, NewEntry.with_entry};

use crate::Heap;
use crate::links::entry::{NewEntry, node_text};
use crate::links::heads::Heads;
use phys_mem::PhysMem;
use store_laws::heap::{heads_moved, image_facts, nodes_linked};
use store_laws::{bodies_are_inside, entries_are_told, states_fit, steps_keep_facts};
use store_model::EntryList;

// Links the node at an address to a next node. An address of 0 names no node.
fn name_next(heap: &Heap, memory: &mut PhysMem, last: u64, node: u64)
    requires { (l : Layout) × (bytes : List ℕ) × Holds heap.now memory.old l bytes
        × (last ≢ 0 → (l.base ≤ last) × (last + 8 ≤ l.base + l.len)) }
    ensures { (l : Layout) (bytes : List ℕ) → Holds heap.now memory.old l bytes
        → (last ≢ 0 → (l.base ≤ last) × (last + 8 ≤ l.base + l.len))
        → Holds heap.now memory.new l (named_at l.base last node bytes) }
{
    if last != 0 {
        heap.put(memory, last - heap.span.base, node.to_le_bytes().as_slice());
    }
}

/// Adds an entry at the end of a list, with a node, for which there must be room.
pub fn push(heap: &Heap, memory: &mut PhysMem, heads: &mut Heads, list: EntryList, entry: NewEntry)
    requires { (s : StoreState) × IsLinked heap.now memory.old heads.old s × IsReady list entry s }
    ensures { (s : StoreState) → IsLinked heap.now memory.old heads.old s → IsReady list entry s
        → IsLinked heap.now memory.new heads.new (with_entry list entry s) }
{
    bodies_are_inside();
    entries_are_told();
    heads_moved();
    image_facts();
    nodes_linked();
    states_fit();
    steps_keep_facts();
    let base = heap.span.base;
    let last = heads.last(list);
    let second = entry.second(list, base);
    let text = node_text(base + entry.descriptor, second, entry.by);
    let node = heap.node(memory);
    heap.put(memory, node, text.as_slice());
    name_next(heap, memory, last, base + node);
    heads.push(list, base + node);
}
