//! How long what the heap holds is, in bytes without a HOB's header.
use pi_base::GUID_LEN;

/// A node: four addresses or numbers (own).
pub const NODE_LEN: u64 = 32;

/// The fields of a descriptor (PI 1.8, volume 1, `EFI_PEI_PPI_DESCRIPTOR` and `EFI_PEI_NOTIFY_DESCRIPTOR`, with addresses of 64 bits).
pub const DESCRIPTOR_LEN: u64 = 24;

/// A descriptor with its GUID after it (own).
pub const INLINE_DESCRIPTOR_LEN: u64 = DESCRIPTOR_LEN + GUID_LEN as u64;
