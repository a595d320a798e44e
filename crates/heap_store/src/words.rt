// Three numbers of eight bytes, one behind another, in the heap.
ghost use Rattle.std.specs.Prelude.{◌≡◌, ◌≤◌, ◌<◌, ◌+◌, ◌-◌, ◌^◌, ℕ, List, take, drop};
ghost use Rattle.phys_mem.specs.Region.{replaced};
ghost use Rattle.store_laws.specs.Mapped.{Layout, HasHeap};
ghost use Rattle.heap_store.specs.{WordBytes.words_bytes, declared.words.Words.Words as OfWords};

use phys_mem::PhysMem;
use pi_base::{little_endian, put_u64, u64_at};

/// The first three numbers of a node or of a descriptor.
#[derive(Clone, Copy)]
pub struct Words {
    pub first: u64,
    pub second: u64,
    pub third: u64,
}

/// The numbers at an address of the heap.
pub fn words_at(memory: &PhysMem, at: u64) -> Words
    requires heap { (l : Layout) × (heap : List ℕ) × HasHeap l heap memory.now × (l.base ≤ at) × (at + 24 ≤ l.base + l.len) }
    ensures { (l : Layout) (heap : List ℕ) (words : OfWords) → HasHeap l heap memory.now → l.base ≤ at → at + 24 ≤ l.base + l.len
        → take 24 (drop (at - l.base) heap) ≡ words_bytes words
        → words.first < 256 ^ 8 → words.second < 256 ^ 8 → words.third < 256 ^ 8 → result ≡ words }
{
    little_endian();
    match memory.read(at, 24) {
        Some(stretch) => {
            let mut bytes = [0u8; 24];
            stretch.copy_to(bytes.as_mut_slice());
            Words {
                first: u64_at(bytes.as_slice(), 0),
                second: u64_at(bytes.as_slice(), 8),
                third: u64_at(bytes.as_slice(), 16),
            }
        }
        None => unreachable!(),
    }
}

// Their bytes.
#[tactic(auto, unfolding(crate::specs::WordBytes::words_bytes))]
fn spell(words: Words, bytes: &mut [u8; 24])
    ensures { bytes.new ≡ words_bytes words }
{
    put_u64(bytes.as_mut_slice(), 0, words.first);
    put_u64(bytes.as_mut_slice(), 8, words.second);
    put_u64(bytes.as_mut_slice(), 16, words.third);
}

/// Writes the numbers at an address of the heap.
pub fn put_words(memory: &mut PhysMem, at: u64, words: Words)
    requires heap { (l : Layout) × (heap : List ℕ) × HasHeap l heap memory.old × (l.base ≤ at) × (at + 24 ≤ l.base + l.len) }
    ensures { (l : Layout) (heap : List ℕ) → HasHeap l heap memory.old → l.base ≤ at → at + 24 ≤ l.base + l.len
        → HasHeap l (replaced heap (at - l.base) (words_bytes words)) memory.new }
{
    let mut bytes = [0u8; 24];
    spell(words, &mut bytes);
    if !memory.write(at, bytes.as_slice()) {
        unreachable!()
    }
}
