// Memory is read.
ghost use Rattle.std.specs.Prelude.{length};
ghost use Rattle.store_model.specs.{MemoryReading.bytes_at, Service.OfEach, Service.Present, StoreCall.Anything, StoreCall.Peeks};

use crate::store::HeapStore;
use store_laws::heap::memory_read;

impl HeapStore {
    ghost use Rattle.heap_store.specs.HeapState.{StandsFor};

    /// Reads bytes at an address. False where they do not lie in one mapped region.
    pub fn read_bytes(&self, at: u64, into: &mut [u8]) -> bool
        requires { Present (StandsFor self.now) Anything }
        ensures { OfEach (StandsFor self.now) Anything (λ s. Peeks (bytes_at s at (length into.old)) result into.old into.new) }
    {
        memory_read();
        match self.memory.read(at, into.len()) {
            Some(bytes) => {
                bytes.copy_to(into);
                true
            }
            None => false,
        }
    }
}
