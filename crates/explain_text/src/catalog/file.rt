// The body of the file that bytes begin with.
ghost use Rattle.std.specs.Prelude.{◌≡◌, ◌≤◌, length, option_map};
ghost use Rattle.explain_text.specs.File.{file_body, file_size, header_len, is_large};

use fv_volume::file_header::{
    ATTRIBUTES_AT, EXTENDED_SIZE_AT, HEADER_LEN, LARGE_FILE, LARGE_HEADER_LEN, SIZE_AT,
};
use pi_base::{u24_at, u64_at};

// Whether the file is a large one.
fn is_large(bytes: &[u8]) -> bool
    requires { HEADER_LEN ≤ length bytes.now }
    ensures { result ≡ is_large bytes.now }
{
    bytes[ATTRIBUTES_AT] & LARGE_FILE > 0
}

// The length of its header.
fn header_len(bytes: &[u8]) -> usize
    requires { HEADER_LEN ≤ length bytes.now }
    ensures { result ≡ header_len bytes.now }
{
    if is_large(bytes) {
        LARGE_HEADER_LEN
    } else {
        HEADER_LEN
    }
}

// Its size, with its header.
fn file_size(bytes: &[u8]) -> usize
    requires all { HEADER_LEN ≤ length bytes.now }
    requires header { header_len bytes.now ≤ length bytes.now }
    ensures { result ≡ file_size bytes.now }
{
    if is_large(bytes) {
        u64_at(bytes, EXTENDED_SIZE_AT) as usize
    } else {
        u24_at(bytes, SIZE_AT) as usize
    }
}

/// The body of the file whose header the bytes begin with. None where the header or the file passes their end.
pub(crate) fn file_body(bytes: &[u8]) -> Option<&[u8]>
    ensures { option_map (λ body. body.now) result ≡ file_body bytes.now }
{
    if bytes.len() < HEADER_LEN || bytes.len() < header_len(bytes) {
        return None;
    }
    let begin = header_len(bytes);
    let end = file_size(bytes);
    if end < begin || bytes.len() < end {
        return None;
    }
    Some(&bytes[begin..end])
}
