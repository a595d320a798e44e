//! The header of a section: its fields, and what can be wrong with it.
ghost use Rattle.std.specs.Prelude.{◌≡◌, ◌≤◌, ◌+◌, length};
ghost use Rattle.fv_volume.specs.SectionHeader.{header_at, section_at};

use crate::sections::fault::SecCause;
use crate::sections::section::Section;
use crate::sections::section_type::{COMPRESSION, GUID_DEFINED};
use pi_base::{u24_at, u32_at};

/// The length of a section's header whose Size field has its size.
///
/// PI 1.8, volume 3, `EFI_COMMON_SECTION_HEADER`.
pub const HEADER_LEN: usize = 4;

/// The length of an extended section's header.
///
/// PI 1.8, volume 3, `EFI_COMMON_SECTION_HEADER2`.
pub const EXTENDED_HEADER_LEN: usize = 8;

/// The Size field of an extended section.
pub const EXTENDED: u32 = 0xff_ffff;

/// The offset of the Type field in a header.
pub const TYPE_AT: usize = 3;

/// The offset of the ExtendedSize field in an extended header.
pub const EXTENDED_SIZE_AT: usize = 4;

/// The fields of a section's header.
#[derive(Clone, Copy)]
pub(crate) struct SectionHeader {
    /// The Type byte.
    pub kind: u8,
    /// The header's length in bytes.
    pub len: usize,
    /// The section's size in bytes, its header in it.
    pub size: usize,
}

// The section header at an offset. None if it passes the stream's end.
fn header_at(bytes: &[u8], at: usize) -> Option<SectionHeader>
    requires { at + HEADER_LEN ≤ length bytes.now }
    ensures { result ≡ header_at bytes.now at }
{
    let kind = bytes[at + TYPE_AT];
    let size = u24_at(bytes, at);
    if size != EXTENDED {
        Some(SectionHeader {
            kind,
            len: HEADER_LEN,
            size: size as usize,
        })
    } else if bytes.len() - at < EXTENDED_HEADER_LEN {
        None
    } else {
        Some(SectionHeader {
            kind,
            len: EXTENDED_HEADER_LEN,
            size: u32_at(bytes, at + EXTENDED_SIZE_AT) as usize,
        })
    }
}

/// The section at a place, or the first thing that is wrong with it.
pub(crate) fn section_at(bytes: &[u8], at: usize) -> Result<Section, SecCause>
    requires { at + HEADER_LEN ≤ length bytes.now }
    ensures { result ≡ section_at bytes.now at }
{
    let Some(header) = header_at(bytes, at) else {
        return Err(SecCause::Size);
    };
    if header.size < header.len || header.size > bytes.len() - at {
        Err(SecCause::Size)
    } else if header.kind == COMPRESSION {
        Err(SecCause::Compressed)
    } else if header.kind == GUID_DEFINED {
        Err(SecCause::GuidDefined)
    } else {
        Ok(Section {
            kind: header.kind,
            body_at: (at + header.len) as u64,
            body_len: (header.size - header.len) as u64,
        })
    }
}
