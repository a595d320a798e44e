// The heap's bytes in memory.
ghost use Rattle.std.specs.Prelude.{◌≡◌, ◌≤◌, ◌+◌, ℕ, List, length};
ghost use Rattle.phys_mem.specs.Region.{replaced};
ghost use Rattle.store_laws.specs.Mapped.{Layout};

use phys_mem::{PhysMem, Stretch};
use pi_base::Span;

/// The heap, by its addresses. Its bytes lie in the memory that each call takes; an offset counts from its base.
#[derive(Clone, Copy)]
pub struct Heap {
    /// Its addresses.
    pub span: Span,
}

impl Heap {
    ghost use Rattle.pei_heap.specs.HeapMemory.{Holds};

    /// The bytes of the heap.
    pub fn bytes<'m>(&self, memory: &'m PhysMem) -> Stretch<'m>
        requires heap { (l : Layout) × (bytes : List ℕ) × Holds self.now memory.now l bytes }
        ensures { (l : Layout) (bytes : List ℕ) → Holds self.now memory.now l bytes → result ≡ bytes }
    {
        match memory.read(self.span.base, self.span.len as usize) {
            Some(bytes) => bytes,
            None => unreachable!(),
        }
    }

    /// Writes bytes at an offset.
    pub fn put(&self, memory: &mut PhysMem, offset: u64, bytes: &[u8])
        requires heap { (l : Layout) × (heap : List ℕ) × Holds self.now memory.old l heap × (offset + length bytes.now ≤ l.len) }
        ensures { (l : Layout) (heap : List ℕ) → Holds self.now memory.old l heap → offset + length bytes.now ≤ l.len
            → Holds self.now memory.new l (replaced heap offset bytes.now) }
    {
        if !memory.write(self.span.base + offset, bytes) {
            unreachable!()
        }
    }
}
