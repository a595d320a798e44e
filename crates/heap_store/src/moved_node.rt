// A node in memory, moved.
ghost use Rattle.std.specs.Prelude.{◌≡◌, ◌+◌, List};
ghost use Rattle.store_model.specs.StoreState.{Range, StoreState};
ghost use Rattle.store_laws.specs.Moving.{Done, with_node_done};
ghost use Rattle.heap_store.specs.{Course.IsCourse, Half.IsHalf, Half.with_link, Ready.IsReady};
ghost use Rattle.heap_store.specs.Linked.{Link, IsLink, fields, address, first_of};
ghost use Rattle.heap_store.specs.WordBytes.{links_words, shifted_node};

use crate::course::Course;
use crate::moved_descriptor::{move_descriptor, move_other};
use crate::words::{Words, put_words, words_at};
use phys_mem::PhysMem;

// What a node's addresses are after the move.
fn moved_links(course: &Course, words: Words) -> Words
    requires { (s : StoreState) × (to : Range) × IsCourse s to course.now }
    ensures { (s : StoreState) (to : Range) → IsCourse s to course.now → result ≡ shifted_node s to words }
{
    Words {
        first: course.number(words.first),
        second: course.number(words.second),
        third: course.number(words.third),
    }
}

// Moves the node at an address of the new heap, and says what it names: the next node, its descriptor, and another.
fn move_links(memory: &mut PhysMem, course: &Course, at: u64) -> Words
    requires there { (s : StoreState) × (to : Range) × (done : Done) × (link : Link) × (rest : List Link) × IsReady s to course.now
        × IsLink s to link rest × IsHalf s to done memory.old × (at ≡ to.base + link.node) }
    ensures moved { (s : StoreState) (to : Range) (done : Done) (link : Link) (rest : List Link) → IsReady s to course.now
        → IsLink s to link rest → IsHalf s to done memory.old → at ≡ to.base + link.node
        → IsHalf s to (with_node_done done link.node) memory.new }
    ensures told { (s : StoreState) (to : Range) (done : Done) (link : Link) (rest : List Link) → IsReady s to course.now
        → IsLink s to link rest → IsHalf s to done memory.old → at ≡ to.base + link.node
        → result ≡ links_words (fields to.base link rest) }
{
    let words = words_at(memory, at);
    let moved = moved_links(course, words);
    put_words(memory, at, moved);
    moved
}

/// Moves the node at an address of the new heap with the descriptors that it names. The address of the next node, or 0.
pub fn move_node(memory: &mut PhysMem, course: &Course, at: u64) -> u64
    requires there { (s : StoreState) × (to : Range) × (done : Done) × (link : Link) × (rest : List Link) × IsReady s to course.now
        × IsLink s to link rest × IsHalf s to done memory.old × (at ≡ to.base + link.node) }
    ensures moved { (s : StoreState) (to : Range) (done : Done) (link : Link) (rest : List Link) → IsReady s to course.now
        → IsLink s to link rest → IsHalf s to done memory.old → at ≡ to.base + link.node → IsHalf s to (with_link done link) memory.new }
    ensures next { (s : StoreState) (to : Range) (done : Done) (link : Link) (rest : List Link) → IsReady s to course.now
        → IsLink s to link rest → IsHalf s to done memory.old → at ≡ to.base + link.node → result ≡ address to.base (first_of rest) }
{
    let words = move_links(memory, course, at);
    move_descriptor(memory, course, words.second);
    move_other(memory, course, words.third);
    words.first
}
