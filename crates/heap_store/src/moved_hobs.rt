// The HOBs of pages that were taken, moved.
ghost use Rattle.std.specs.Prelude.{◌≡◌, ◌≤◌, ◌+◌, ◌-◌, ℕ, Some, false};
ghost use Rattle.store_model.specs.{declared.state.AllocationBody.AllocationBody, declared.state.Body.Body};
ghost use Rattle.store_model.specs.declared.state.Body.TheVariants.{Allocation};
ghost use Rattle.store_model.specs.StoreState.{Range, StoreState, body_at, end_place, handoff_len};
ghost use Rattle.store_laws.specs.Moving.{Done};
ghost use Rattle.heap_store.specs.{Half.IsHalf, Pages.with_pages, Pages.with_hobs, Ready.IsReady, Ready.IsOfKind};

use crate::course::Course;
use crate::header::header_at;
use crate::words::{Words, put_words, words_at};
use hob_codec::kind::ALLOCATION;
use hob_codec::{HANDOFF_LEN, HEADER_LEN};
use phys_mem::PhysMem;

// What the numbers of taken pages are after the move: their base is counted from the new heap's end.
fn moved_pages(course: &Course, words: Words) -> Words
    requires pages { (s : StoreState) × (to : Range) × (a : AllocationBody) × IsReady s to course.now × (a.below ≤ s.board.pages)
        × (words.third ≡ s.page_end - a.below) }
    ensures { (s : StoreState) (to : Range) (a : AllocationBody) → IsReady s to course.now → a.below ≤ s.board.pages
        → words.third ≡ s.page_end - a.below
        → result ≡ record { first = words.first; second = words.second; third = to.base + to.len - a.below } }
{
    let page_end = course.from + course.len + course.pages;
    Words {
        first: words.first,
        second: words.second,
        third: course.to + course.room - (page_end - words.third),
    }
}

// Moves the pages whose HOB's body stands at an address of the new heap.
fn move_pages(memory: &mut PhysMem, course: &Course, at: u64)
    requires there { (s : StoreState) × (to : Range) × (done : Done) × (p : ℕ) × (a : AllocationBody) × IsReady s to course.now
        × (body_at s p ≡ Some (Allocation a)) × (a.below ≤ s.board.pages) × (done.pages p ≡ false) × IsHalf s to done memory.old
        × (at ≡ to.base + p) }
    ensures { (s : StoreState) (to : Range) (done : Done) (p : ℕ) (a : AllocationBody) → IsReady s to course.now
        → body_at s p ≡ Some (Allocation a) → a.below ≤ s.board.pages → done.pages p ≡ false → IsHalf s to done memory.old
        → at ≡ to.base + p → IsHalf s to (with_pages done p (Allocation a)) memory.new }
{
    let words = words_at(memory, at);
    let moved = moved_pages(course, words);
    put_words(memory, at, moved);
}

// The same for a HOB of any type.
fn move_hob(memory: &mut PhysMem, course: &Course, kind: u16, at: u64)
    requires there { (s : StoreState) × (to : Range) × (done : Done) × (p : ℕ) × (body : Body) × IsReady s to course.now
        × (body_at s p ≡ Some body) × IsOfKind s kind body × (done.pages p ≡ false) × IsHalf s to done memory.old × (at ≡ to.base + p) }
    ensures { (s : StoreState) (to : Range) (done : Done) (p : ℕ) (body : Body) → IsReady s to course.now → body_at s p ≡ Some body
        → IsOfKind s kind body → done.pages p ≡ false → IsHalf s to done memory.old → at ≡ to.base + p
        → IsHalf s to (with_pages done p body) memory.new }
{
    if kind == ALLOCATION {
        move_pages(memory, course, at);
    }
}

/// Moves the pages of all HOBs up to the end HOB, whose address in the new heap is given.
pub fn move_hobs(memory: &mut PhysMem, course: &Course, end: u64)
    requires hobs { (s : StoreState) × (to : Range) × (done : Done) × IsReady s to course.now × ((place : ℕ) → done.pages place ≡ false)
        × IsHalf s to done memory.old × (end ≡ to.base + end_place s) }
    ensures { (s : StoreState) (to : Range) (done : Done) → IsReady s to course.now → ((place : ℕ) → done.pages place ≡ false)
        → IsHalf s to done memory.old → end ≡ to.base + end_place s → IsHalf s to (with_hobs done handoff_len s.hobs) memory.new }
{
    let mut at = course.to + HANDOFF_LEN as u64;
    'hobs: for _step in 0..course.len {
        if at >= end {
            return;
        }
        let header = header_at(memory, at);
        move_hob(memory, course, header.kind, at + HEADER_LEN as u64);
        at += u64::from(header.len);
    }
}
