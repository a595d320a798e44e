// Memory is read.
ghost use Rattle.std.specs.Prelude.{◌≡◌, ◌<◌, ◌+◌, ◌^◌, ◌&&◌, ◌||◌, not, length, map, IsTrue};
ghost use Rattle.phys_mem.specs.Region.{is_inside};
ghost use Rattle.pi_base.specs.Lists.{numbers};
ghost use Rattle.store_model.specs.{StateFacts.IsStoreState, StoreCall.Peeks, MemoryReading.bytes_at, MemoryReading.heap_byte};

use crate::descriptor::rom_bytes;
use crate::store::PlainStore;
use pi_base::Span;

// Whether a span has all `n` addresses from `at` on.
fn is_inside(span: Span, at: u64, n: usize) -> bool
    ensures { result ≡ is_inside span.base span.len at n }
{
    at >= span.base && at - span.base <= span.len && n as u64 <= span.len - (at - span.base)
}

impl PlainStore {
    ghost use Rattle.store_plain.specs.PlainState.{state_of};

    // Whether mapped temporary RAM or RAM has so many bytes at an address.
    fn is_in_ram(&self, at: u64, n: usize) -> bool
        ensures is { result ≡ ((not self.now.moved && is_inside self.now.temp.base self.now.temp.len at n)
            || is_inside self.now.ram.base self.now.ram.len at n) }
        ensures fits { IsTrue result → at + n < 2 ^ 64 }
    {
        (!self.moved && is_inside(self.temp, at, n)) || is_inside(self.ram, at, n)
    }

    // Reads bytes of the heap, and zeros outside it.
    fn read_heap(&self, at: u64, into: &mut [u8])
        requires facts { IsStoreState (state_of self.now) }
        requires fits { at + length into.old < 2 ^ 64 }
        ensures { into.new ≡ map (heap_byte (state_of self.now)) (numbers at (length into.old)) }
    {
        'bytes: for i in 0..into.len() {
            into[i] = self.heap_byte(at + i as u64);
        }
    }

    // Reads bytes at an address. Returns false if no single mapped region has all of them.
    pub(crate) fn read_bytes(&self, at: u64, into: &mut [u8]) -> bool
        requires { IsStoreState (state_of self.now) }
        ensures { Peeks (bytes_at (state_of self.now) at (length into.old)) result into.old into.new }
    {
        if self.is_in_ram(at, into.len()) {
            self.read_heap(at, into);
            return true;
        }
        match rom_bytes(self.roms.as_slice(), at, into.len()) {
            Some(bytes) => {
                into.copy_from_slice(bytes);
                true
            }
            None => false,
        }
    }
}
