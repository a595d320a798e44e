//! The name of a volume, in an extended header before its files. PI 1.8, volume 3, `EFI_FIRMWARE_VOLUME_EXT_HEADER`.
ghost use Rattle.std.specs.Prelude.{◌≡◌, ◌≤◌, ◌++◌, OnOk, true};
ghost use Rattle.fv_volume.specs.Front.{usual_name, ext_at, extended_bytes, name_part, front_len, first_place, is_placed};

use crate::ALIGNMENT;
use crate::build::fill::{fill, gap};
use crate::build::volume_header::{ERASED, VolumeForm};
use pi_base::{Guid, OutOfMemory, Seq, put_u32};

/// The usual offset of an extended header (own).
pub const EXT_AT: u16 = 96;

/// The bytes of an extended header without entries: FvName and ExtHeaderSize.
pub const EXT_HEADER_LEN: u32 = 20;

/// A volume's name, and the offset of its extended header.
#[derive(Clone, Copy)]
pub struct VolumeName {
    /// FvName.
    pub guid: Guid,
    /// ExtHeaderOffset: the offset of the extended header from the volume's start.
    pub at: u16,
    /// ExtHeaderSize. What has room for entries is erased.
    pub size: u32,
}

impl VolumeName {
    /// This name, with its extended header at the usual offset.
    pub fn new(guid: Guid) -> VolumeName
        ensures { result ≡ usual_name guid }
    {
        VolumeName {
            guid,
            at: EXT_AT,
            size: EXT_HEADER_LEN,
        }
    }
}

/// Whether the extended header is after the header, and its size holds all of its fields.
pub fn is_placed(form: &VolumeForm, name: Option<VolumeName>) -> bool
    ensures { result ≡ is_placed form.now.header_len name }
{
    match name {
        None => true,
        Some(name) => form.header_len <= name.at && EXT_HEADER_LEN <= name.size,
    }
}

/// ExtHeaderOffset, 0 if there is no name.
pub(crate) fn ext_at(name: Option<VolumeName>) -> u16
    ensures { result ≡ ext_at name }
{
    match name {
        None => 0,
        Some(name) => name.at,
    }
}

/// The bytes before the files: up to the end of the extended header, or of the header if there is no name.
pub(crate) fn front_len(form: &VolumeForm, name: Option<VolumeName>) -> usize
    ensures { result ≡ front_len form.now name }
{
    match name {
        None => usize::from(form.header_len),
        Some(name) => usize::from(name.at) + name.size as usize,
    }
}

/// The offset of the first file of a volume, with a name or without.
pub fn first_place(form: &VolumeForm, name: Option<VolumeName>) -> usize
    ensures { result ≡ first_place form.now name }
{
    let end = front_len(form, name);
    end + gap(ALIGNMENT, end)
}

// Adds an extended header.
fn put_extended(out: &mut Seq<u8>, name: &VolumeName) -> Result<(), OutOfMemory>
    requires { EXT_HEADER_LEN ≤ name.now.size }
    ensures { OnOk result (out.new ≡ out.old ++ extended_bytes name.now) }
{
    let mut size = [0; 4];
    put_u32(&mut size, 0, name.size);
    out.append(&name.guid.0)?;
    out.append(&size)?;
    fill(out, (name.size - EXT_HEADER_LEN) as usize, ERASED)
}

/// Adds what is between the header and the end of the extended header, or nothing if there is no name.
pub(crate) fn put_name(
    out: &mut Seq<u8>,
    form: &VolumeForm,
    name: Option<VolumeName>,
) -> Result<(), OutOfMemory>
    requires { is_placed form.now.header_len name ≡ true }
    ensures { OnOk result (out.new ≡ out.old ++ name_part form.now.header_len name) }
{
    let Some(name) = name else {
        return Ok(());
    };
    fill(out, usize::from(name.at - form.header_len), ERASED)?;
    put_extended(out, &name)
}
