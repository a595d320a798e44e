//! The extended header of a volume, which holds its name.
ghost use Rattle.std.specs.Prelude.{◌≡◌, ◌≤◌, length, IfOk, IfSome};
ghost use Rattle.fv_volume.specs.ExtendedHeader.{extended_header};

use crate::fault::{VolCause, VolFault};
use crate::volume_header::{EXT_HEADER_OFFSET_AT, VolumeHeader};
use pi_base::{GUID_LEN, Guid, u32_at};

/// The length of an extended header without its entries: FvName and ExtHeaderSize.
///
/// PI 1.8, volume 3, `EFI_FIRMWARE_VOLUME_EXT_HEADER`.
pub const EXT_HEADER_LEN: usize = 20;

/// What an extended header says.
#[derive(Clone, Copy)]
pub(crate) struct ExtendedHeader {
    /// FvName.
    pub name: Guid,
    /// The offset of the first byte after it and its entries, counted from the volume's start.
    pub end: usize,
}

/// The extended header. None if ExtHeaderOffset is 0.
pub(crate) fn extended_header(
    bytes: &[u8],
    header: &VolumeHeader,
) -> Result<Option<ExtendedHeader>, VolFault>
    requires { header.now.len ≤ length bytes.now }
    ensures header { result ≡ extended_header bytes.now header.now }
    ensures within { IfOk result (λ found. IfSome found (λ extended. extended.end ≤ header.now.len)) }
{
    let fault = VolFault {
        at: EXT_HEADER_OFFSET_AT as u64,
        cause: VolCause::ExtHeader,
    };
    let at = header.ext_header_at;
    if at == 0 {
        return Ok(None);
    }
    if at < header.header_len || at > header.len || header.len - at < EXT_HEADER_LEN {
        return Err(fault);
    }
    let size = u32_at(bytes, at + GUID_LEN) as usize;
    if size < EXT_HEADER_LEN || size > header.len - at {
        return Err(fault);
    }
    Ok(Some(ExtendedHeader {
        name: Guid::at(bytes, at),
        end: at + size,
    }))
}
