// The hand-off HOB: where the list ends, and what the new one says.
ghost use Rattle.std.specs.Prelude.{◌≡◌, ◌≤◌};
ghost use Rattle.store_model.specs.StoreState.{Range, StoreState, end_place};
ghost use Rattle.pei_heap.specs.HeapMemory.{HasState, IsHeapOf};
ghost use Rattle.heap_store.specs.{Copied.IsCopied, Half.IsHalf, Half.none_done, Ready.IsReady};

use crate::course::Course;
use crate::words::{Words, put_words};
use hob_codec::HEADER_LEN;
use pei_heap::{END_AT, Heap, word_in};
use phys_mem::PhysMem;
use store_laws::heap::handoff_read;

// The offset of EfiMemoryTop, behind which EfiMemoryBottom and EfiFreeMemoryTop stand.
const MEMORY_TOP_AT: u64 = 16;

// The offset of EfiFreeMemoryTop, behind which EfiFreeMemoryBottom and EfiEndOfHobList stand.
const FREE_TOP_AT: u64 = pei_heap::FREE_TOP_AT as u64;

/// The offset of the end HOB.
pub fn end_place(heap: &Heap, memory: &PhysMem) -> u64
    requires { HasState heap.now memory.now }
    ensures { (s : StoreState) → IsHeapOf heap.now memory.now s → result ≡ end_place s }
{
    handoff_read();
    word_in(&heap.bytes(memory), END_AT) - heap.span.base
}

/// Writes the memory's bounds into the hand-off HOB of the new heap.
pub fn write_handoff(memory: &mut PhysMem, course: &Course, place: u64, taken: u64)
    requires copied { (s : StoreState) × (to : Range) × IsReady s to course.now × IsCopied s to memory.old × (place ≡ end_place s)
        × (taken ≡ s.taken) × (s.taken ≤ s.board.pages) }
    ensures { (s : StoreState) (to : Range) → IsReady s to course.now → IsCopied s to memory.old → place ≡ end_place s → taken ≡ s.taken
        → s.taken ≤ s.board.pages → IsHalf s to none_done memory.new }
{
    let top = course.to + course.room;
    let low = Words {
        first: top,
        second: course.to,
        third: top - taken,
    };
    put_words(memory, course.to + MEMORY_TOP_AT, low);
    let high = Words {
        first: top - taken,
        second: course.to + place + HEADER_LEN as u64,
        third: course.to + place,
    };
    put_words(memory, course.to + FREE_TOP_AT, high);
}
