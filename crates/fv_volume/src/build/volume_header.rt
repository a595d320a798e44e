//! The header of a built volume as bytes.
ghost use Rattle.std.specs.Prelude.{◌≡◌, ◌<◌, ◌^◌, ◌++◌, OnOk, true};
ghost use Rattle.fv_volume.specs.Header.{header_front, is_header_length, plain, volume_header};

use crate::build::file_system::{FileSystem, file_system_guid};
use crate::build::fill::fill;
use crate::volume_header::{
    ATTRIBUTES_AT, CHECKSUM_AT, ERASE_POLARITY, EXT_HEADER_OFFSET_AT, FILE_SYSTEM_AT,
    HEADER_LENGTH_AT, LEAST_HEADER_LEN, LEAST_LEN, LENGTH_AT, REVISION, REVISION_AT, SIGNATURE,
    SIGNATURE_AT,
};
use pi_base::{GUID_LEN, OutOfMemory, Seq, checksum16, put_u16, put_u32, put_u64};

/// HeaderLength if no other is chosen: the header with a block map of one entry and the entry that ends it (own).
pub const HEADER_LEN: usize = 72;

// How many numbers 16 bits can hold.
const NUMBERS_OF_16_BITS: u64 = 0x1_0000;

/// The value of a byte that was not written: the volume is erased to ones (own).
pub(crate) const ERASED: u8 = 0xff;

/// How a volume is made, apart from its files.
#[derive(Clone, Copy)]
pub struct VolumeForm {
    /// The file system.
    pub file_system: FileSystem,
    /// Attributes, `EFI_FVB_ATTRIBUTES_2`. The erase polarity is set in any case.
    pub attributes: u32,
    /// HeaderLength. Zeros fill the header after the one entry of its block map.
    pub header_len: u16,
}

impl VolumeForm {
    /// A volume of this file system with a header of `HEADER_LEN` bytes, with no attributes but its erase polarity.
    pub fn new(file_system: FileSystem) -> VolumeForm
        ensures { result ≡ plain file_system }
    {
        VolumeForm {
            file_system,
            attributes: 0,
            header_len: HEADER_LEN as u16,
        }
    }
}

/// Whether a header may have so many bytes: an even number that fits 16 bits, and at least what a reader requires.
pub fn is_header_length(len: u64) -> bool
    ensures { result ≡ is_header_length len }
{
    LEAST_HEADER_LEN as u64 <= len && len % 2 == 0 && len < NUMBERS_OF_16_BITS
}

/// What a volume's header says, without its checksum.
#[derive(Clone, Copy)]
pub struct VolumeHead {
    /// The file system and the attributes.
    pub form: VolumeForm,
    /// ExtHeaderOffset, 0 if there is no extended header.
    pub ext_header_at: u16,
    /// FvLength.
    pub len: u64,
}

// The header's fields with a checksum, up to the first entry of the block map.
fn header_front(head: &VolumeHead, checksum: u16) -> [u8; LEAST_HEADER_LEN]
    requires { head.now.len < 2 ^ 32 }
    ensures { result ≡ header_front head.now checksum }
{
    let mut header = [0; LEAST_HEADER_LEN];
    let guid = file_system_guid(head.form.file_system);
    header[FILE_SYSTEM_AT..FILE_SYSTEM_AT + GUID_LEN].copy_from_slice(&guid);
    put_u64(&mut header, LENGTH_AT, head.len);
    put_u32(&mut header, SIGNATURE_AT, SIGNATURE);
    put_u32(
        &mut header,
        ATTRIBUTES_AT,
        head.form.attributes | ERASE_POLARITY,
    );
    put_u16(&mut header, HEADER_LENGTH_AT, head.form.header_len);
    put_u16(&mut header, CHECKSUM_AT, checksum);
    put_u16(&mut header, EXT_HEADER_OFFSET_AT, head.ext_header_at);
    header[REVISION_AT] = REVISION;
    put_u32(&mut header, LEAST_LEN, 1);
    put_u32(&mut header, LEAST_LEN + 4, head.len as u32);
    header
}

/// Adds the header of a volume.
pub fn put_volume_header(out: &mut Seq<u8>, head: &VolumeHead) -> Result<(), OutOfMemory>
    requires header { is_header_length head.now.form.header_len ≡ true }
    requires len { head.now.len < 2 ^ 32 }
    ensures { OnOk result (out.new ≡ out.old ++ volume_header head.now) }
{
    let checksum = checksum16(&header_front(head, 0));
    out.append(&header_front(head, checksum))?;
    fill(out, usize::from(head.form.header_len) - LEAST_HEADER_LEN, 0)
}
