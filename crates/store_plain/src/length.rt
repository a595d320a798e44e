// Lengths in bytes. PI 1.8, volume 3, `EFI_HOB_GENERIC_HEADER` and its HOBs; volume 1, `EFI_PEI_PPI_DESCRIPTOR`.
ghost use Rattle.std.specs.Prelude.{◌≡◌};
ghost use Rattle.store_model.specs.StoreState.{descriptor_len, rounded};

use store_model::{DESCRIPTOR_LEN, INLINE_DESCRIPTOR_LEN};

/// Of a HOB's header, and of the end HOB.
pub(crate) const HEADER_LEN: u64 = hob_codec::HEADER_LEN as u64;

/// Of the hand-off HOB, its header included.
pub(crate) const HANDOFF_LEN: u64 = hob_codec::HANDOFF_LEN as u64;

/// Of the body of a HOB of allocated pages.
pub(crate) const ALLOCATION_LEN: u64 = hob_codec::ALLOCATION_LEN as u64 - HEADER_LEN;

// Of a descriptor, by the address of its GUID.
pub(crate) fn descriptor_len(stands: Option<u64>) -> u64
    ensures { result ≡ descriptor_len stands }
{
    match stands {
        None => INLINE_DESCRIPTOR_LEN,
        Some(_) => DESCRIPTOR_LEN,
    }
}

// The next multiple of 8.
pub(crate) fn round_up(size: u32) -> u64
    ensures { result ≡ rounded size }
{
    (size as u64 + 7) / 8 * 8
}
