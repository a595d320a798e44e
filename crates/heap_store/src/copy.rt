// The HOB list, copied to the new heap.
ghost use Rattle.std.specs.Prelude.{◌≡◌, ◌+◌};
ghost use Rattle.store_model.specs.StoreState.{Range, StoreState, end_place};
ghost use Rattle.heap_store.specs.{Copied.IsCopied, Ready.IsMoving, Ready.course_of};

use crate::course::Course;
use phys_mem::PhysMem;

/// Copies the first `n` bytes of the old heap to the new, and unmaps temporary RAM.
pub fn copy_heap(memory: &mut PhysMem, course: &Course, n: usize)
    requires due { (s : StoreState) × (to : Range) × IsMoving s to memory.old × (course.now ≡ course_of s to) × (n ≡ end_place s + 8) }
    ensures { (s : StoreState) (to : Range) → IsMoving s to memory.old → course.now ≡ course_of s to → n ≡ end_place s + 8
        → IsCopied s to memory.new }
{
    if !memory.copy(course.from, course.to, n) {
        unreachable!()
    }
    memory.unmap_temp();
}
