// The first queued pair leaves the queue.
ghost use Rattle.std.specs.Prelude.{◌≡◌, ◌∷◌, List};
ghost use Rattle.store_model.specs.{declared.state.Pending.Pending, StoreState.StoreState};
ghost use Rattle.store_laws.specs.Changes.{without_first};
ghost use Rattle.pei_heap.specs.{Linked.IsLinked, Popped.IsPopped};

use crate::links::descriptor::{number_of, read_descriptor};
use crate::links::heads::Heads;
use crate::links::node::nth_node;
use crate::{Heap, word_in};
use phys_mem::PhysMem;
use store_laws::heap::{bodies_changed, heads_moved, image_facts, nodes_read};
use store_laws::{named_are_there, services_keep_facts};
use store_model::{Desc, Firing, NODE_LEN};

// The bytes of a node that no list has.
const NO_NODE: [u8; NODE_LEN as usize] = [0; NODE_LEN as usize];

// The node of the first queued pair becomes zeros, and the next pair is the first.
fn unlink_first(heap: &Heap, memory: &mut PhysMem, heads: &mut Heads)
    requires { (s : StoreState) × (first : Pending) × (rest : List Pending) × IsLinked heap.now memory.old heads.old s
        × (s.pendings ≡ first ∷ rest) }
    ensures { (s : StoreState) (first : Pending) (rest : List Pending) → IsLinked heap.now memory.old heads.old s
        → s.pendings ≡ first ∷ rest → IsLinked heap.now memory.new heads.new (without_first s first rest) }
{
    bodies_changed();
    heads_moved();
    image_facts();
    nodes_read();
    services_keep_facts();
    let offset = heads.queue - heap.span.base;
    let next = word_in(&heap.bytes(memory), offset as usize);
    heap.put(memory, offset, NO_NODE.as_slice());
    heads.pop(next);
}

/// Removes the first queued pair, and returns what its notification receives. None if the queue is empty.
pub fn pop(heap: &Heap, memory: &mut PhysMem, heads: &mut Heads) -> Option<Firing>
    requires { (s : StoreState) × IsLinked heap.now memory.old heads.old s }
    ensures { (s : StoreState) → IsLinked heap.now memory.old heads.old s
        → IsPopped heap.now s result (record {
          old_memory = memory.old;
          old_heads = heads.old;
          new_memory = memory.new;
          new_heads = heads.new;
        }) }
{
    named_are_there();
    let base = heap.span.base;
    let pair = match nth_node(&heap.bytes(memory), base, heads.queue, 0) {
        Some(pair) => pair,
        None => return None,
    };
    let ppi = Desc {
        offset: pair.second - base,
    };
    let note = Desc {
        offset: pair.descriptor - base,
    };
    let entry = number_of(heap, memory, note) as u32;
    let told = read_descriptor(heap, memory, ppi);
    unlink_first(heap, memory, heads);
    Some(Firing {
        entry,
        ppi,
        guid: told.guid,
        value: told.number,
    })
}
