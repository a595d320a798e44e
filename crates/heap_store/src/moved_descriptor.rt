// A descriptor in memory, moved.
ghost use Rattle.std.specs.Prelude.{◌≡◌, ◌+◌, ℕ, Option, IfSome};
ghost use Rattle.store_model.specs.{declared.store_handle.DescKind.DescKind as OfKind, StoreState.Range, StoreState.StoreState};
ghost use Rattle.store_model.specs.{HeapImage.kind_flags, Migration.moved_value};
ghost use Rattle.store_laws.specs.Moving.{Done, with_descriptor};
ghost use Rattle.heap_store.specs.{Course.IsCourse, Half.IsHalf, Half.with_other, Linked.HasDescriptor, Linked.address, Ready.IsReady};
ghost use Rattle.heap_store.specs.WordBytes.{shifted_descriptor};

use crate::course::Course;
use crate::words::{Words, put_words, words_at};
use phys_mem::PhysMem;
use store_model::DescKind;

// What a descriptor's number is after the move: a PPI's value is shifted, and a notification's entry is not.
fn moved_value(course: &Course, flags: u64, n: u64) -> u64
    requires { (s : StoreState) × (to : Range) × IsCourse s to course.now }
    ensures { (s : StoreState) (to : Range) (kind : OfKind) → IsCourse s to course.now → flags ≡ kind_flags kind
        → result ≡ moved_value s to kind n }
{
    if flags == DescKind::Ppi.flags() {
        course.number(n)
    } else {
        n
    }
}

// What a descriptor's numbers are after the move.
fn moved_words(course: &Course, words: Words) -> Words
    requires { (s : StoreState) × (to : Range) × IsCourse s to course.now }
    ensures { (s : StoreState) (to : Range) (kind : OfKind) → IsCourse s to course.now → words.first ≡ kind_flags kind
        → result ≡ shifted_descriptor s to kind words }
{
    Words {
        first: words.first,
        second: course.number(words.second),
        third: moved_value(course, words.first, words.third),
    }
}

/// Moves the descriptor at an address of the new heap. One that was moved stays.
pub fn move_descriptor(memory: &mut PhysMem, course: &Course, at: u64)
    requires there { (s : StoreState) × (to : Range) × (done : Done) × (p : ℕ) × IsReady s to course.now × HasDescriptor s p
        × IsHalf s to done memory.old × (at ≡ to.base + p) }
    ensures { (s : StoreState) (to : Range) (done : Done) (p : ℕ) → IsReady s to course.now → HasDescriptor s p
        → IsHalf s to done memory.old → at ≡ to.base + p → IsHalf s to (with_descriptor done p) memory.new }
{
    let words = words_at(memory, at);
    let moved = moved_words(course, words);
    put_words(memory, at, moved);
}

/// The same for an address that may be 0, for none.
pub fn move_other(memory: &mut PhysMem, course: &Course, at: u64)
    requires there { (s : StoreState) × (to : Range) × (done : Done) × (p : Option ℕ) × IsReady s to course.now
        × IfSome p (HasDescriptor s) × IsHalf s to done memory.old × (at ≡ address to.base p) }
    ensures { (s : StoreState) (to : Range) (done : Done) (p : Option ℕ) → IsReady s to course.now → IfSome p (HasDescriptor s)
        → IsHalf s to done memory.old → at ≡ address to.base p → IsHalf s to (with_other done p) memory.new }
{
    if at != 0 {
        move_descriptor(memory, course, at);
    }
}
