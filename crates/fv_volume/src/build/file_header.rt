//! The headers of files as bytes.
ghost use Rattle.std.specs.Prelude.{◌≡◌, ◌<◌, ◌^◌, ◌++◌, OnOk};
ghost use Rattle.std.specs.Bool.{OnFalse};
ghost use Rattle.fv_volume.specs.Files.{short_fields, extended_size, file_header};

use crate::build::attributes::FileAttributes;
use crate::file_header::FIXED_CHECKSUM;
use crate::file_state::{DATA_VALID, HEADER_CONSTRUCTION, HEADER_VALID};
use pi_base::{Guid, OutOfMemory, Seq, checksum8, put_u24, put_u64};

/// The State byte of a file that is there whole, in a volume that is erased to ones.
pub(crate) const WRITTEN: u8 = !(HEADER_CONSTRUCTION | HEADER_VALID | DATA_VALID);

/// What a file's header says, but for its checksums and its State.
#[derive(Clone, Copy)]
pub(crate) struct FileHead {
    pub name: Guid,
    pub kind: u8,
    /// The attributes that the file's writer chose.
    pub attributes: FileAttributes,
    /// Whether the file is large: its size then is in ExtendedSize, and Size is 0.
    pub large: bool,
    /// The file's size, its header in it.
    pub size: u64,
}

// The eight bytes after the name.
fn short_fields(head: &FileHead, header_checksum: u8, file_checksum: u8, state: u8) -> [u8; 8]
    requires { OnFalse head.now.large (head.now.size < 2 ^ 24) }
    ensures { result ≡ short_fields head.now header_checksum file_checksum state }
{
    let mut size = [0; 3];
    if !head.large {
        put_u24(&mut size, 0, head.size as u32);
    }
    let [low, middle, high] = size;
    [
        header_checksum,
        file_checksum,
        head.kind,
        head.attributes.byte(head.large),
        low,
        middle,
        high,
        state,
    ]
}

/// Adds the header of a file.
pub(crate) fn put_file_header(out: &mut Seq<u8>, head: &FileHead) -> Result<(), OutOfMemory>
    requires { OnFalse head.now.large (head.now.size < 2 ^ 24) }
    ensures { OnOk result (out.new ≡ out.old ++ file_header head.now) }
{
    let mut extended_size = [0; 8];
    put_u64(&mut extended_size, 0, head.size);
    let extended_len = if head.large { extended_size.len() } else { 0 };
    let extended = &extended_size[..extended_len];
    let checksum = checksum8(&head.name.0)
        .wrapping_add(checksum8(&short_fields(head, 0, 0, 0)))
        .wrapping_add(checksum8(extended));
    out.append(&head.name.0)?;
    out.append(&short_fields(head, checksum, FIXED_CHECKSUM, WRITTEN))?;
    out.append(extended)
}
