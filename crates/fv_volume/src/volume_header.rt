//! The header of a volume: its fields, and what can be wrong with them.
ghost use Rattle.std.specs.Prelude.{◌≡◌, ◌≤◌, length, IfNone};
ghost use Rattle.fv_volume.specs.VolumeHeader.{volume_header, header_fault, format_of, file_system_at, fault_at};

use crate::fault::{VolCause, VolFault};
use crate::part::part_of;
use pi_base::{GUID_LEN, sum16, u16_at, u32_at, u64_at};

/// The bytes before the block map, which is not read.
///
/// PI 1.8, volume 3, `EFI_FIRMWARE_VOLUME_HEADER`.
pub const LEAST_LEN: usize = 56;

/// The least HeaderLength: the header with the entry that ends the block map.
pub const LEAST_HEADER_LEN: usize = 64;

/// The offset of FileSystemGuid.
pub const FILE_SYSTEM_AT: usize = 16;

/// The offset of FvLength, eight bytes.
pub const LENGTH_AT: usize = 32;

/// The offset of Signature.
pub const SIGNATURE_AT: usize = 40;

/// The offset of Attributes, four bytes.
pub const ATTRIBUTES_AT: usize = 44;

/// The offset of HeaderLength, two bytes.
pub const HEADER_LENGTH_AT: usize = 48;

/// The offset of Checksum, two bytes.
pub const CHECKSUM_AT: usize = 50;

/// The offset of ExtHeaderOffset, two bytes.
pub const EXT_HEADER_OFFSET_AT: usize = 52;

/// The offset of Revision.
pub const REVISION_AT: usize = 55;

/// `EFI_FVH_SIGNATURE`, the bytes `_FVH` as a number.
pub const SIGNATURE: u32 = 0x4856_465f;

/// `EFI_FVH_REVISION`.
pub const REVISION: u8 = 2;

/// `EFI_FVB2_ERASE_POLARITY` of Attributes.
pub const ERASE_POLARITY: u32 = 0x800;

/// The FFS2 file system, 8c8ce578-8a3d-4f1c-9935-896185c32dd3 as stored.
pub const FFS2: [u8; 16] = [
    0x78, 0xe5, 0x8c, 0x8c, 0x3d, 0x8a, 0x1c, 0x4f, 0x99, 0x35, 0x89, 0x61, 0x85, 0xc3, 0x2d, 0xd3,
];

/// The FFS3 file system, 5473c07a-3dcb-4dca-bd6f-1e9689e7349a as stored.
pub const FFS3: [u8; 16] = [
    0x7a, 0xc0, 0x73, 0x54, 0xcb, 0x3d, 0xca, 0x4d, 0xbd, 0x6f, 0x1e, 0x96, 0x89, 0xe7, 0x34, 0x9a,
];

/// A file system by its GUID.
#[derive(Clone, Copy)]
pub(crate) enum FileSystem {
    /// Files below 16 MiB.
    Ffs2,
    /// Large files too.
    Ffs3,
    /// Another GUID.
    Unknown,
}

/// The fields of a volume's header that are read.
#[derive(Clone, Copy)]
pub(crate) struct VolumeHeader {
    pub file_system: FileSystem,
    /// FvLength: the volume's bytes, header and all.
    pub len: usize,
    pub signature: u32,
    pub attributes: u32,
    /// HeaderLength: the header's bytes, block map and all.
    pub header_len: usize,
    /// ExtHeaderOffset: the offset of the extended header, or 0 if there is none.
    pub ext_header_at: usize,
    pub revision: u8,
}

/// How files are stored in a volume.
#[derive(Clone, Copy)]
pub(crate) struct Format {
    /// Whether the volume may have large files.
    pub large_files: bool,
    /// The value of an erased byte.
    pub erased: u8,
}

// The file system whose GUID is in the header.
fn file_system_at(bytes: &[u8]) -> FileSystem
    requires { LEAST_LEN ≤ length bytes.now }
    ensures { result ≡ file_system_at bytes.now }
{
    let guid = part_of(bytes, FILE_SYSTEM_AT, GUID_LEN);
    if guid.starts_with(&FFS2) {
        FileSystem::Ffs2
    } else if guid.starts_with(&FFS3) {
        FileSystem::Ffs3
    } else {
        FileSystem::Unknown
    }
}

/// The fields of the header at the volume's start.
pub(crate) fn volume_header(bytes: &[u8]) -> VolumeHeader
    requires { LEAST_LEN ≤ length bytes.now }
    ensures { result ≡ volume_header bytes.now }
{
    VolumeHeader {
        file_system: file_system_at(bytes),
        len: u64_at(bytes, LENGTH_AT) as usize,
        signature: u32_at(bytes, SIGNATURE_AT),
        attributes: u32_at(bytes, ATTRIBUTES_AT),
        header_len: u16_at(bytes, HEADER_LENGTH_AT) as usize,
        ext_header_at: u16_at(bytes, EXT_HEADER_OFFSET_AT) as usize,
        revision: bytes[REVISION_AT],
    }
}

// A fault at the offset of a field.
fn fault_at(at: usize, cause: VolCause) -> Option<VolFault>
    ensures { result ≡ fault_at at cause }
{
    Some(VolFault {
        at: at as u64,
        cause,
    })
}

/// The first thing that is wrong with a header, apart from its extended header.
pub(crate) fn header_fault(bytes: &[u8], header: &VolumeHeader) -> Option<VolFault>
    ensures fault { result ≡ header_fault bytes.now header.now }
    ensures sound { IfNone result ((header.now.len ≤ length bytes.now) × (header.now.header_len ≤ header.now.len)) }
{
    if header.signature != SIGNATURE {
        fault_at(SIGNATURE_AT, VolCause::Signature)
    } else if header.revision != REVISION {
        fault_at(REVISION_AT, VolCause::Revision)
    } else if header.file_system == FileSystem::Unknown {
        fault_at(FILE_SYSTEM_AT, VolCause::FileSystem)
    } else if header.len > bytes.len() {
        fault_at(LENGTH_AT, VolCause::Length)
    } else if header.header_len % 2 != 0
        || header.header_len < LEAST_HEADER_LEN
        || header.header_len > header.len
    {
        fault_at(HEADER_LENGTH_AT, VolCause::HeaderLength)
    } else if sum16(part_of(bytes, 0, header.header_len)) != 0 {
        fault_at(CHECKSUM_AT, VolCause::HeaderSum)
    } else {
        None
    }
}

/// How the volume of a header stores its files.
pub(crate) fn format_of(header: &VolumeHeader) -> Format
    ensures { result ≡ format_of header.now }
{
    Format {
        large_files: header.file_system == FileSystem::Ffs3,
        erased: if header.attributes & ERASE_POLARITY != 0 {
            0xff
        } else {
            0x00
        },
    }
}
