// Reading a HOB at a place.
ghost use Rattle.std.specs.Prelude.{◌≡◌, ◌≤◌, ◌+◌, ◌++◌, ℕ, List, length, IfNone, Some, Ok, Err, MatchResult, IfOk};
ghost use Rattle.hob_codec.specs.HobReading.{reading, padded, header_fault, length_at, body_at};
ghost use Rattle.hob_codec.specs.{HobValue.HobValue, HobValue.IsHob, HobBytes.hob_bytes, HobBytes.hob_len, HobView.hob_value};

use crate::body::hob_of;
use crate::fault::HobFault;
use crate::hob::Hob;
use crate::length::HEADER_LEN;
use pi_base::u16_at;

// The fault of the header at a place.
fn header_fault(bytes: &[u8], at: usize) -> Option<HobFault>
    ensures fault { result ≡ header_fault bytes.now at }
    ensures sound { IfNone result ((8 ≤ length_at bytes.now at) × (at + length_at bytes.now at ≤ length bytes.now)) }
{
    let left = bytes.len().saturating_sub(at);
    if left < HEADER_LEN {
        return Some(HobFault::Short);
    }
    let len = u16_at(bytes, at + 2) as usize;
    if len < HEADER_LEN || len % 8 != 0 || left < len {
        Some(HobFault::Length)
    } else {
        None
    }
}

// The body of the HOB at a place.
fn body_at(bytes: &[u8], at: usize) -> &[u8]
    requires least { 8 ≤ length_at bytes.now at }
    requires fits { at + length_at bytes.now at ≤ length bytes.now }
    ensures { result.now ≡ body_at bytes.now at }
{
    let len = u16_at(bytes, at + 2) as usize;
    &bytes[at + HEADER_LEN..at + len]
}

/// The HOB at an offset in the bytes, and the offset after it.
///
/// The faults are tested in this order: `Short` if fewer than 8 bytes are left; `Length` if HobLength is below 8, not a multiple of 8 or more than is left;
/// `Form` if a type of the table has a body that it may not have. An end HOB is read as `Other`.
pub fn read_at(bytes: &[u8], at: usize) -> Result<(Hob<'_>, usize), HobFault>
    ensures read { MatchResult result (λ read. reading bytes.now at ≡ Ok (hob_value read.0, read.1))
        (λ fault. reading bytes.now at ≡ Err fault) }
    // A HOB has at least a header, and is inside the bytes.
    ensures next { IfOk result
        (λ read. (read.1 ≡ at + length_at bytes.now at) × (8 ≤ length_at bytes.now at) × (read.1 ≤ length bytes.now)) }
{
    if let Some(fault) = header_fault(bytes, at) {
        return Err(fault);
    }
    let next = at + u16_at(bytes, at + 2) as usize;
    match hob_of(u16_at(bytes, at), body_at(bytes, at)) {
        Some(hob) => Ok((hob, next)),
        None => Err(HobFault::Form),
    }
}

/// An encoded HOB is read as the same HOB with its body padded, whatever is before and after it.
pub fn round_trip()
    ensures { (hob : HobValue) (len : ℕ) (front rest : List ℕ) → IsHob hob → hob_len hob ≡ Some len
        → reading (front ++ (hob_bytes hob ++ rest)) (length front) ≡ Ok (padded hob, length front + len) }
{}
