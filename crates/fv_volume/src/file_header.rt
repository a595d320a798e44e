//! The header of a file: its fields, and what can be wrong with them.
ghost use Rattle.std.specs.Prelude.{◌≡◌, ◌≤◌, ◌+◌, length, IfSome};
ghost use Rattle.fv_volume.specs.FileHeader.{fields_at, file_header, header_sum, size_is_wrong, data_is_wrong};

use crate::bits::is_set;
use crate::volume_header::Format;
use pi_base::{Guid, sum8, u24_at, u64_at};

/// The length of a file's header.
///
/// PI 1.8, volume 3, `EFI_FFS_FILE_HEADER`.
pub const HEADER_LEN: usize = 24;

/// The length of a large file's header.
///
/// PI 1.8, volume 3, `EFI_FFS_FILE_HEADER2`.
pub const LARGE_HEADER_LEN: usize = 32;

/// The offset of the file checksum in a header.
pub const FILE_CHECKSUM_AT: usize = 17;

/// The offset of Type.
pub const TYPE_AT: usize = 18;

/// The offset of Attributes.
pub const ATTRIBUTES_AT: usize = 19;

/// The offset of Size, three bytes.
pub const SIZE_AT: usize = 20;

/// The offset of State.
pub const STATE_AT: usize = 23;

/// The offset of ExtendedSize, eight bytes, in a large file's header.
pub const EXTENDED_SIZE_AT: usize = 24;

/// `FFS_ATTRIB_LARGE_FILE`.
pub const LARGE_FILE: u8 = 0x01;

/// `FFS_ATTRIB_CHECKSUM`.
pub const CHECKSUM: u8 = 0x40;

/// `FFS_FIXED_CHECKSUM`: the file checksum of a file whose body is not summed.
pub const FIXED_CHECKSUM: u8 = 0xaa;

/// The fields of a file's header that are read.
#[derive(Clone, Copy)]
pub(crate) struct FileHeader {
    pub name: Guid,
    /// The file checksum, that of the body.
    pub checksum: u8,
    pub kind: u8,
    pub attributes: u8,
    /// The header's length in bytes.
    pub len: usize,
    /// The file's size in bytes, its header in it.
    pub size: usize,
}

// The fields at a place, with a length of the header and a size.
fn fields_at(image: &[u8], at: usize, len: usize, size: usize) -> FileHeader
    requires { at + HEADER_LEN ≤ length image.now }
    ensures { result ≡ fields_at image.now at len size }
{
    FileHeader {
        name: Guid::at(image, at),
        checksum: image[at + FILE_CHECKSUM_AT],
        kind: image[at + TYPE_AT],
        attributes: image[at + ATTRIBUTES_AT],
        len,
        size,
    }
}

/// The file header at an offset. None if it passes the volume's end.
pub(crate) fn file_header(image: &[u8], format: Format, at: usize) -> Option<FileHeader>
    requires { at + HEADER_LEN ≤ length image.now }
    ensures header { result ≡ file_header image.now format at }
    ensures len { IfSome result (λ header. (HEADER_LEN ≤ header.len) × (at + header.len ≤ length image.now)) }
{
    let large = format.large_files && is_set(image[at + ATTRIBUTES_AT], LARGE_FILE);
    if !large {
        let size = u24_at(image, at + SIZE_AT) as usize;
        Some(fields_at(image, at, HEADER_LEN, size))
    } else if image.len() - at < LARGE_HEADER_LEN {
        None
    } else {
        let size = u64_at(image, at + EXTENDED_SIZE_AT) as usize;
        Some(fields_at(image, at, LARGE_HEADER_LEN, size))
    }
}

/// The sum of a header's bytes, its file checksum and its State taken as 0.
pub(crate) fn header_sum(header: &[u8]) -> u8
    requires { HEADER_LEN ≤ length header.now }
    ensures { result ≡ header_sum header.now }
{
    sum8(&header[..FILE_CHECKSUM_AT])
        .wrapping_add(sum8(&header[TYPE_AT..STATE_AT]))
        .wrapping_add(sum8(&header[HEADER_LEN..]))
}

/// Whether the size is not that of a file of the volume with so many bytes from the header on.
pub(crate) fn size_is_wrong(format: Format, room: usize, header: &FileHeader) -> bool
    ensures { result ≡ size_is_wrong format room header.now }
{
    (!format.large_files && is_set(header.attributes, LARGE_FILE))
        || header.size < header.len
        || header.size > room
}

/// Whether a body does not agree with the file checksum.
pub(crate) fn data_is_wrong(header: &FileHeader, body: &[u8]) -> bool
    ensures { result ≡ data_is_wrong header.now body.now }
{
    if is_set(header.attributes, CHECKSUM) {
        sum8(body).wrapping_add(header.checksum) != 0
    } else {
        header.checksum != FIXED_CHECKSUM
    }
}
