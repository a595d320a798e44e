// Numbers of 8 bytes, one after another, and the bytes of a descriptor.
ghost use Rattle.std.specs.Prelude.{◌≡◌, ◌≤◌, ◌<◌, ◌+◌, ◌*◌, ◌++◌, ◌^◌, length, take};
ghost use Rattle.store_model.specs.HeapImage.{guid_address};
ghost use Rattle.store_plain.specs.Words.{words_bytes, descriptor_words};

use pi_base::put_u64;
use store_model::{DESCRIPTOR_LEN, DescriptorBody};

// Writes numbers to the front.
pub(crate) fn put_words(out: &mut [u8], words: &[u64])
    requires { 8 * length words.now ≤ length out.old }
    ensures { take (8 * length words.now) out.new ≡ words_bytes words.now }
{
    'words: for i in 0..words.len() {
        put_u64(out, 8 * i, words[i]);
    }
}

// The address of the GUID of the descriptor at a place.
fn guid_address(base: u64, place: u64, stands: Option<u64>) -> u64
    requires { base + place + 24 < 2 ^ 64 }
    ensures { result ≡ guid_address base place stands }
{
    match stands {
        None => base + place + DESCRIPTOR_LEN,
        Some(address) => address,
    }
}

// The numbers of a descriptor.
pub(crate) fn descriptor_words(base: u64, place: u64, d: &DescriptorBody) -> [u64; 3]
    requires { base + place + 24 < 2 ^ 64 }
    ensures { result ≡ descriptor_words base place d.now }
{
    [
        d.kind.flags(),
        guid_address(base, place, d.stands),
        d.number,
    ]
}

// The bytes of a descriptor whose GUID is in a volume.
pub(crate) fn short_bytes(words: &[u64; 3]) -> [u8; 24]
    ensures { result ≡ words_bytes words.now }
{
    let mut bytes = [0u8; 24];
    put_words(&mut bytes, words);
    bytes
}

// The bytes of a descriptor whose GUID is after it.
pub(crate) fn long_bytes(words: &[u64; 3], guid: &[u8; 16]) -> [u8; 40]
    ensures { result ≡ words_bytes words.now ++ guid.now }
{
    let mut bytes = [0u8; 40];
    put_words(&mut bytes, words);
    bytes[24..].copy_from_slice(guid);
    bytes
}
