// The header of a HOB in memory.
ghost use Rattle.std.specs.Prelude.{◌≡◌, ◌≤◌, ◌<◌, ◌+◌, ◌-◌, ◌^◌, ℕ, List, take, drop};
ghost use Rattle.store_model.specs.HeapImage.{header_bytes};
ghost use Rattle.store_laws.specs.Mapped.{Layout, HasHeap};
ghost use Rattle.heap_store.specs.declared.header.Header.{Header as OfHeader};

use phys_mem::PhysMem;
use pi_base::{little_endian, u16_at};

/// A HOB's type and length.
#[derive(Clone, Copy)]
pub struct Header {
    pub kind: u16,
    pub len: u16,
}

/// The header at an address of the heap.
pub fn header_at(memory: &PhysMem, at: u64) -> Header
    requires heap { (l : Layout) × (heap : List ℕ) × HasHeap l heap memory.now × (l.base ≤ at) × (at + 8 ≤ l.base + l.len) }
    ensures { (l : Layout) (heap : List ℕ) (header : OfHeader) → HasHeap l heap memory.now → l.base ≤ at → at + 8 ≤ l.base + l.len
        → take 8 (drop (at - l.base) heap) ≡ header_bytes header.kind header.len
        → header.kind < 256 ^ 2 → header.len < 256 ^ 2 → result ≡ header }
{
    little_endian();
    match memory.read(at, 8) {
        Some(stretch) => {
            let mut bytes = [0u8; 8];
            stretch.copy_to(bytes.as_mut_slice());
            Header {
                kind: u16_at(bytes.as_slice(), 0),
                len: u16_at(bytes.as_slice(), 2),
            }
        }
        None => unreachable!(),
    }
}
