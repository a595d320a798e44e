// Operands of actions, read from bytes: each reader returns a value and the bytes after it.
ghost use Rattle.std.specs.{Prelude.◌≡◌, Prelude.◌<◌, List.list_all};
ghost use Rattle.act_code.specs.Format.{is_within, is_hob};
ghost use Rattle.act_code.specs.Reading.{Gives, byte_at, within_at, little_at, guid_front, bytes_at, counted_at, guid_arg_at};
ghost use Rattle.act_code.specs.declared.operand.Unread.TheVariants as unread;

use crate::action::GuidArg;
use pi_base::{GUID_LEN, Guid, OutOfMemory, Seq, u16_at};
use std::alloc::Global;

/// Why an action was not read, from bytes or from a line of text.
pub enum Unread {
    /// No action of the phase is there.
    Malformed,
    /// Memory ran out.
    Memory,
}

impl From<OutOfMemory> for Unread {
    ghost from_gives = { λ _ e. e ≡ unread.Memory };

    fn from(_want: OutOfMemory) -> Unread {
        Unread::Memory
    }
}

/// The most bytes of a counted list.
pub const MOST_BYTES: u8 = 64;

/// The most registers of a list.
pub const MOST_REGISTERS: u8 = 8;

/// The form of a GUID operand that is the GUID.
pub const GUID_FOLLOWS: u8 = 0;

/// The form of a GUID operand that is the number of a register.
pub const REGISTER_FOLLOWS: u8 = 1;

/// A byte.
#[tactic(auto, unfolding(crate::specs::Reading::byte_at))]
pub fn byte(bytes: &[u8]) -> Result<(u8, &[u8]), Unread>
    ensures { Gives (λ x. (x.0, x.1.now)) result (byte_at bytes.now) }
{
    match bytes {
        [first, rest @ ..] => Ok((*first, rest)),
        [] => Err(Unread::Malformed),
    }
}

/// Reads a byte from `low` to `high`.
#[tactic(auto, unfolding(crate::specs::Reading::within_at))]
pub fn byte_within(bytes: &[u8], low: u8, high: u8) -> Result<(u8, &[u8]), Unread>
    ensures { Gives (λ x. (x.0, x.1.now)) result (within_at low high bytes.now) }
{
    let (value, rest) = byte(bytes)?;
    if low <= value && value <= high {
        Ok((value, rest))
    } else {
        Err(Unread::Malformed)
    }
}

/// A number of two bytes.
#[tactic(auto, unfolding(crate::specs::Reading::little_at))]
pub fn number_2(bytes: &[u8]) -> Result<(u16, &[u8]), Unread>
    ensures { Gives (λ x. (x.0, x.1.now)) result (little_at 2 bytes.now) }
{
    if bytes.len() < 2 {
        return Err(Unread::Malformed);
    }
    Ok((u16_at(bytes, 0), &bytes[2..]))
}

/// A GUID.
#[tactic(auto, unfolding(crate::specs::Reading::guid_front))]
pub fn guid(bytes: &[u8]) -> Result<(Guid, &[u8]), Unread>
    ensures { Gives (λ x. (x.0, x.1.now)) result (guid_front bytes.now) }
{
    if bytes.len() < GUID_LEN {
        return Err(Unread::Malformed);
    }
    Ok((Guid::at(bytes, 0), &bytes[GUID_LEN..]))
}

/// So many bytes.
#[tactic(auto, unfolding(crate::specs::Reading::bytes_at))]
pub fn bytes_of(alloc: Global, count: usize, bytes: &[u8]) -> Result<(Seq<u8>, &[u8]), Unread>
    ensures { Gives (λ x. (x.0, x.1.now)) result (bytes_at count bytes.now) }
{
    if bytes.len() < count {
        return Err(Unread::Malformed);
    }
    let (front, rest) = bytes.split_at(count);
    let mut list = Seq::new(alloc);
    list.append(front)?;
    Ok((list, rest))
}

/// Reads a count from 1 to `most`, and so many bytes.
#[tactic(auto, unfolding(crate::specs::Reading::counted_at))]
pub fn counted(alloc: Global, bytes: &[u8], most: u8) -> Result<(Seq<u8>, &[u8]), Unread>
    ensures { Gives (λ x. (x.0, x.1.now)) result (counted_at most bytes.now) }
{
    let (count, rest) = byte_within(bytes, 1, most)?;
    bytes_of(alloc, count as usize, rest)
}

/// Whether all bytes are printable.
pub fn are_printable(bytes: &[u8]) -> bool
    ensures { result ≡ list_all (is_within 32 126) bytes.now }
{
    bytes.iter().all(|byte| b' ' <= *byte && *byte <= b'~')
}

/// Reads a form byte, and a GUID or the number of a register.
#[tactic(auto, unfolding(crate::specs::Reading::guid_arg_at))]
pub fn guid_arg(bytes: &[u8]) -> Result<(GuidArg, &[u8]), Unread>
    ensures { Gives (λ x. (x.0, x.1.now)) result (guid_arg_at bytes.now) }
{
    let (form, rest) = byte_within(bytes, GUID_FOLLOWS, REGISTER_FOLLOWS)?;
    if form == GUID_FOLLOWS {
        let (guid, rest) = guid(rest)?;
        Ok((GuidArg::Inline(guid), rest))
    } else {
        let (v, rest) = byte(rest)?;
        Ok((GuidArg::Register(v), rest))
    }
}

/// The types of HOBs that a script may make (PI 1.8, volume 3, `EFI_HOB_TYPE_RESOURCE_DESCRIPTOR` and on).
mod hob_type {
    pub const RESOURCE: u8 = 3;

    pub const GUID: u8 = 4;

    pub const FV: u8 = 5;

    pub const CPU: u8 = 6;

    pub const FV2: u8 = 9;
}

/// Whether a script may make a HOB of a type with so long a body.
pub fn is_hob(kind: u8, length: usize) -> bool
    ensures { result ≡ is_hob kind length }
{
    match kind {
        hob_type::RESOURCE => length == 40,
        hob_type::GUID => 16 <= length && length <= 1024,
        hob_type::FV => length == 16,
        hob_type::CPU => length == 8,
        hob_type::FV2 => length == 48,
        _ => false,
    }
}
