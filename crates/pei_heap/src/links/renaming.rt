// A PPI that names another descriptor.
ghost use Rattle.store_model.specs.{StoreState.StoreState, StateFacts.IsDescOf, declared.store_handle.Desc.Desc as OfDesc};
ghost use Rattle.store_model.specs.declared.store_handle.DescKind.TheVariants.{Ppi};
ghost use Rattle.pei_heap.specs.Linked.{IsLinked};
ghost use Rattle.pei_heap.specs.Replaced.{IsFirstNamed, IsFound, IsReplaced, with_renamed};

use crate::Heap;
use crate::links::heads::Heads;
use crate::links::walk::entry_from;
use phys_mem::PhysMem;
use store_laws::heap::{bodies_changed, heads_moved, image_facts, nodes_read};
use store_laws::{bodies_are_inside, steps_keep_facts};
use store_model::Desc;

// The offset of the descriptor in a node.
const DESCRIPTOR_AT: u64 = crate::links::node::DESCRIPTOR_AT as u64;

/// A PPI that was found: its place in the list, and the offset of its node.
#[derive(Clone, Copy)]
pub struct PpiFound {
    pub place: u32,
    pub node: u64,
}

/// The first PPI that names a descriptor. None if no PPI names it.
pub fn find_ppi(heap: &Heap, memory: &PhysMem, heads: &Heads, d: Desc) -> Option<PpiFound>
    requires { (s : StoreState) × IsLinked heap.now memory.now heads.now s }
    ensures { (s : StoreState) → IsLinked heap.now memory.now heads.now s → IsFound s d result }
{
    let mut at = heads.ppi;
    'ppis: for place in 0..heads.ppis {
        let met = match entry_from(heap, memory, at) {
            Some(met) => met,
            None => return None,
        };
        if met.entry.descriptor == d.offset {
            let node = met.entry.node;
            return Some(PpiFound { place, node });
        }
        at = met.next;
    }
    None
}

/// Makes a PPI that was found name another descriptor.
pub fn rename(heap: &Heap, memory: &mut PhysMem, heads: &Heads, found: PpiFound, new: Desc)
    requires { (s : StoreState) × (old : OfDesc) × IsLinked heap.now memory.old heads.now s × IsFirstNamed s old found
        × IsDescOf s Ppi new }
    ensures { (s : StoreState) (old : OfDesc) → IsLinked heap.now memory.old heads.now s → IsFirstNamed s old found
        → IsDescOf s Ppi new → IsLinked heap.now memory.new heads.now (with_renamed s old new) }
{
    bodies_are_inside();
    bodies_changed();
    heads_moved();
    image_facts();
    nodes_read();
    steps_keep_facts();
    let address = heap.span.base + new.offset;
    heap.put(
        memory,
        found.node + DESCRIPTOR_AT,
        address.to_le_bytes().as_slice(),
    );
}

/// Makes the first PPI that names a descriptor name another, and returns its place. None if no PPI names it.
pub fn replace(
    heap: &Heap,
    memory: &mut PhysMem,
    heads: &Heads,
    old: Desc,
    new: Desc,
) -> Option<u32>
    requires { (s : StoreState) × IsLinked heap.now memory.old heads.now s × IsDescOf s Ppi new }
    ensures { (s : StoreState) → IsLinked heap.now memory.old heads.now s → IsDescOf s Ppi new
        → IsReplaced heap.now heads.now s (record { old = old; new = new; before = memory.old; after = memory.new }) result }
{
    let found = match find_ppi(heap, memory, heads, old) {
        Some(found) => found,
        None => return None,
    };
    rename(heap, memory, heads, found, new);
    Some(found.place)
}
