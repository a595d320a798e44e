// The move of a heap as a whole.
ghost use Rattle.std.specs.Prelude.{◌≡◌};
ghost use Rattle.store_model.specs.StoreState.{Range, StoreState, end_place, range_of};
ghost use Rattle.store_model.specs.{HeapImage.heap_image, Migration.migrated_to};
ghost use Rattle.store_laws.specs.Mapped.{IsMemoryOf};
ghost use Rattle.pei_heap.specs.Linked.{AreHeads, IsLinked};
ghost use Rattle.heap_store.specs.{Due.IsDue, Relocated.IsRelocated};
ghost use Rattle.heap_store.specs.Half.{IsHalf, lists_done, none_done};
ghost use Rattle.heap_store.specs.Ready.{IsReady, IsMoving, course_of};

use crate::chain::move_chain;
use crate::copy::copy_heap;
use crate::course::Course;
use crate::handoff::{end_place, write_handoff};
use crate::moved_hobs::move_hobs;
use hob_codec::HEADER_LEN;
use pei_heap::Heap;
use pei_heap::links::Heads;
use phys_mem::PhysMem;
use pi_base::{Span, little_endian};

// The ends of the lists after the move.
fn moved_heads(course: &Course, heads: &Heads) -> Heads
    requires ready { (s : StoreState) × (to : Range) × IsReady s to course.now }
    ensures { (s : StoreState) (to : Range) → IsReady s to course.now → AreHeads s heads.now → AreHeads (migrated_to s to) result }
{
    Heads {
        ppi: course.number(heads.ppi),
        ppi_tail: course.number(heads.ppi_tail),
        note: course.number(heads.note),
        note_tail: course.number(heads.note_tail),
        later: course.number(heads.later),
        later_tail: course.number(heads.later_tail),
        queue: course.number(heads.queue),
        queue_tail: course.number(heads.queue_tail),
        ppis: heads.ppis,
        notes: heads.notes,
    }
}

// Moves the nodes of the four lists, whose heads are those of the new heap.
fn move_lists(memory: &mut PhysMem, course: &Course, heads: &Heads)
    requires lists { (s : StoreState) × (to : Range) × IsReady s to course.now × AreHeads (migrated_to s to) heads.now
        × IsHalf s to none_done memory.old }
    ensures { (s : StoreState) (to : Range) → IsReady s to course.now → AreHeads (migrated_to s to) heads.now
        → IsHalf s to none_done memory.old → IsHalf s to (lists_done s) memory.new }
{
    move_chain(memory, course, heads.ppi);
    move_chain(memory, course, heads.note);
    move_chain(memory, course, heads.later);
    move_chain(memory, course, heads.queue);
}

// Moves the heap whose end HOB is at a place, and says what the heads are then.
fn move_heap(memory: &mut PhysMem, course: &Course, heads: &Heads, place: u64, taken: u64) -> Heads
    requires due { (s : StoreState) × (to : Range) × IsMoving s to memory.old × (course.now ≡ course_of s to) × AreHeads s heads.now
        × (place ≡ end_place s) × (taken ≡ s.taken) }
    ensures memory { (s : StoreState) (to : Range) → IsMoving s to memory.old → course.now ≡ course_of s to → AreHeads s heads.now
        → place ≡ end_place s → taken ≡ s.taken → IsMemoryOf (migrated_to s to) memory.new }
    ensures heads { (s : StoreState) (to : Range) → IsMoving s to memory.old → course.now ≡ course_of s to → AreHeads s heads.now
        → place ≡ end_place s → taken ≡ s.taken → AreHeads (migrated_to s to) result }
{
    copy_heap(memory, course, (place + HEADER_LEN as u64) as usize);
    write_handoff(memory, course, place, taken);
    let moved = moved_heads(course, heads);
    move_lists(memory, course, &moved);
    move_hobs(memory, course, course.to + place);
    moved
}

/// Moves the heap with its lists to permanent memory: `to` is the memory that was planned, `pages` the page region behind the old heap, and `early` the bytes of pages that were taken of it. Memory that had the image of a state has that of the state after the move, and temporary RAM is unmapped.
pub fn migrate(
    memory: &mut PhysMem,
    heap: &mut Heap,
    heads: &mut Heads,
    pages: Span,
    early: u64,
    to: Span,
)
    requires { (s : StoreState) × IsLinked heap.old memory.old heads.old s × IsDue s pages early to }
    ensures linked { (s : StoreState) → IsLinked heap.old memory.old heads.old s → IsDue s pages early to
        → IsLinked heap.new memory.new heads.new (migrated_to s (range_of to)) }
    ensures relocated { (s : StoreState) → IsLinked heap.old memory.old heads.old s → IsDue s pages early to
        → IsRelocated s (range_of to) (heap_image s) (heap_image (migrated_to s (range_of to))) }
{
    little_endian();
    let course = Course {
        from: heap.span.base,
        len: heap.span.len,
        pages: pages.len,
        to: to.base,
        room: to.len,
    };
    let place = end_place(heap, memory);
    *heads = move_heap(memory, &course, heads, place, early);
    heap.span = to;
}
