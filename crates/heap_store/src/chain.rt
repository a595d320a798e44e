// The nodes of a list in memory, moved.
ghost use Rattle.std.specs.Prelude.{◌≡◌};
ghost use Rattle.store_model.specs.{StoreState.Range, StoreState.StoreState, declared.store_handle.EntryList.EntryList};
ghost use Rattle.store_laws.specs.Moving.{Done};
ghost use Rattle.heap_store.specs.{Half.IsHalf, Half.with_links, Ready.IsReady};
ghost use Rattle.heap_store.specs.Linked.{address, first_of, links_of};

use crate::course::Course;
use crate::moved_node::move_node;
use phys_mem::PhysMem;

/// Moves the nodes of a list with the descriptors that they name. The head is the address of the first in the new heap, or 0.
pub fn move_chain(memory: &mut PhysMem, course: &Course, head: u64)
    requires list { (s : StoreState) × (to : Range) × (done : Done) × (list : EntryList) × IsReady s to course.now
        × IsHalf s to done memory.old
        × (head ≡ address to.base (first_of (links_of s list))) }
    ensures { (s : StoreState) (to : Range) (done : Done) (list : EntryList) → IsReady s to course.now → IsHalf s to done memory.old
        → head ≡ address to.base (first_of (links_of s list)) → IsHalf s to (with_links done (links_of s list)) memory.new }
{
    let mut at = head;
    'nodes: for _step in 0..course.len {
        if at == 0 {
            return;
        }
        at = move_node(memory, course, at);
    }
}
