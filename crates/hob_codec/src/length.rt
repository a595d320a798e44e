// The length of an encoded HOB, in bytes with its header.
ghost use Rattle.std.specs.Prelude.{◌≡◌, ◌≤◌, ◌+◌, ◌%◌, length, nat_le, if◌then◌else◌};
ghost use Rattle.hob_codec.specs.{HobBytes.hob_len, HobBytes.padded_len, HobView.hob_value};

use crate::hob::Hob;

/// The length of a header: type, length and 4 reserved bytes. PI 1.8, volume 3, `EFI_HOB_GENERIC_HEADER`.
pub const HEADER_LEN: usize = 8;

/// The greatest length of a HOB, a multiple of 8.
pub const MOST_LEN: usize = 65_528;

/// The length of a hand-off. PI 1.8, volume 3, `EFI_HOB_HANDOFF_INFO_TABLE`.
pub const HANDOFF_LEN: u16 = 56;

/// The length of a memory allocation. PI 1.8, volume 3, `EFI_HOB_MEMORY_ALLOCATION`.
pub const ALLOCATION_LEN: u16 = 48;

/// The length of a resource. PI 1.8, volume 3, `EFI_HOB_RESOURCE_DESCRIPTOR`.
pub const RESOURCE_LEN: u16 = 48;

/// The length of a HOB with a name and no data. PI 1.8, volume 3, `EFI_HOB_GUID_TYPE`.
pub const NAMED_LEN: usize = 24;

/// The length of a volume. PI 1.8, volume 3, `EFI_HOB_FIRMWARE_VOLUME`.
pub const VOLUME_LEN: u16 = 24;

/// The length of a processor's spaces. PI 1.8, volume 3, `EFI_HOB_CPU`.
pub const CPU_LEN: u16 = 16;

/// The length of a volume of a file. PI 1.8, volume 3, `EFI_HOB_FIRMWARE_VOLUME2`.
pub const VOLUME2_LEN: u16 = 56;

// The length with a padded body after the fields.
fn with_body(before: usize, body: &[u8]) -> Option<u16>
    requires short { before ≤ 24 }
    requires aligned { before % 8 ≡ 0 }
    ensures { result
        ≡ (if nat_le (before + padded_len (length body.now)) 65528 then Some (before + padded_len (length body.now)) else None) }
{
    if body.len() > MOST_LEN - before {
        return None;
    }
    Some((before + (body.len() + 7) / 8 * 8) as u16)
}

/// The length of the HOB with its header, in bytes. None if it would be above 65,528.
pub fn hob_len(hob: &Hob<'_>) -> Option<u16>
    ensures { result ≡ hob_len (hob_value hob.now) }
{
    match hob {
        Hob::Handoff(_) => Some(HANDOFF_LEN),
        Hob::Allocation { .. } => Some(ALLOCATION_LEN),
        Hob::Resource { .. } => Some(RESOURCE_LEN),
        Hob::Named { body, .. } => with_body(NAMED_LEN, body),
        Hob::Volume { .. } => Some(VOLUME_LEN),
        Hob::Cpu { .. } => Some(CPU_LEN),
        Hob::Volume2 { .. } => Some(VOLUME2_LEN),
        Hob::Pool { body } | Hob::Other { body, .. } => with_body(HEADER_LEN, body),
    }
}
