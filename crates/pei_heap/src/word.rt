// Numbers in the heap's bytes.
ghost use Rattle.std.specs.Prelude.{◌≡◌, ◌≤◌, ◌+◌, length};
ghost use Rattle.pi_base.specs.Guids.{guid_at};
ghost use Rattle.store_laws.specs.Word as W;

use phys_mem::Stretch;
use pi_base::{GUID_LEN, Guid, u16_at, u32_at, u64_at};

/// The number in the eight bytes at an offset from the heap's base.
pub fn word_in(heap: &Stretch<'_>, offset: usize) -> u64
    requires { offset + 8 ≤ length heap.now }
    ensures { result ≡ W.word_in heap.now offset }
{
    if let Some(bytes) = heap.kept(offset, 8) {
        return u64_at(bytes, 0);
    }
    let mut bytes = [0u8; 8];
    heap.get(offset, bytes.as_mut_slice());
    u64_at(bytes.as_slice(), 0)
}

/// The number in the four bytes at an offset from the heap's base.
pub fn half_word_in(heap: &Stretch<'_>, offset: usize) -> u32
    requires { offset + 4 ≤ length heap.now }
    ensures { result ≡ W.half_word_in heap.now offset }
{
    if let Some(bytes) = heap.kept(offset, 4) {
        return u32_at(bytes, 0);
    }
    let mut bytes = [0u8; 4];
    heap.get(offset, bytes.as_mut_slice());
    u32_at(bytes.as_slice(), 0)
}

/// The number in the two bytes at an offset from the heap's base.
pub fn short_in(heap: &Stretch<'_>, offset: usize) -> u16
    requires { offset + 2 ≤ length heap.now }
    ensures { result ≡ W.short_in heap.now offset }
{
    if let Some(bytes) = heap.kept(offset, 2) {
        return u16_at(bytes, 0);
    }
    let mut bytes = [0u8; 2];
    heap.get(offset, bytes.as_mut_slice());
    u16_at(bytes.as_slice(), 0)
}

/// The GUID at an offset from the heap's base.
pub fn guid_in(heap: &Stretch<'_>, offset: usize) -> Guid
    requires { offset + 16 ≤ length heap.now }
    ensures { result ≡ guid_at heap.now offset }
{
    let mut guid = [0u8; GUID_LEN];
    heap.get(offset, guid.as_mut_slice());
    Guid(guid)
}
