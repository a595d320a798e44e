//! Volumes built from files.
ghost use Rattle.std.specs.Prelude.{◌≡◌, ◌≤◌, ◌<◌, ◌^◌, None, Some, IfOk, IfErr, OnOk, true};
ghost use Rattle.fv_volume.specs.{FileSystems.Ffs2, FileSystems.Ffs3, Header.is_header_length, Header.plain, Front.is_placed};
ghost use Rattle.fv_volume.specs.Building.{volume_bytes, built, built_as, fault_from, volume_fault, IsRefusal};
ghost use Rattle.fv_volume.specs.Reading.{IsWhole, IsReadAs, IsReadBack};

use crate::MOST_FILES;
use crate::build::fault::BuildFault;
use crate::build::file::put_files;
use crate::build::file_system::FileSystem;
use crate::build::fill::fill;
use crate::build::new_file::NewFile;
use crate::build::size::{has_sixteen, have_whole_names, is_too_long, need};
use crate::build::volume_header::{ERASED, VolumeForm, VolumeHead, put_volume_header};
use crate::build::volume_name::{VolumeName, ext_at, front_len, put_name};
use pi_base::{OutOfMemory, Seq};
use std::alloc::Global;

/// The longest volume that is built (own).
pub const MOST_LEN: u64 = 64 * 1024 * 1024;

// The first reason why files cannot be laid after so many bytes of a volume of this length.
fn check(
    file_system: FileSystem,
    from: usize,
    files: &[NewFile],
    len: u64,
) -> Result<(), BuildFault>
    requires { len ≤ MOST_LEN }
    ensures sound { OnOk result (fault_from file_system from files.now len ≡ None) }
    ensures refused { IfErr result (λ fault. fault_from file_system from files.now len ≡ Some fault) }
{
    if files.len() > MOST_FILES {
        return Err(BuildFault::TooMany);
    }
    if is_too_long(file_system, files) {
        return Err(BuildFault::Size);
    }
    let need = need(file_system, from, files) as u64;
    if need > len {
        return Err(BuildFault::NoRoom { need, have: len });
    }
    Ok(())
}

// Writes a volume that can be built, from front to back.
fn write(
    alloc: Global,
    form: &VolumeForm,
    name: Option<VolumeName>,
    files: &[NewFile],
    len: u64,
) -> Result<Seq<u8>, OutOfMemory>
    requires header { is_header_length form.now.header_len ≡ true }
    requires placed { is_placed form.now.header_len name ≡ true }
    requires whole { IsWhole name }
    requires most { len ≤ MOST_LEN }
    requires sound { volume_fault form.now name files.now len ≡ None }
    ensures { IfOk result (λ volume. volume ≡ volume_bytes form.now name files.now len) }
{
    let head = VolumeHead {
        form: *form,
        ext_header_at: ext_at(name),
        len,
    };
    let mut volume = Seq::new(alloc);
    put_volume_header(&mut volume, &head)?;
    put_name(&mut volume, form, name)?;
    put_files(&mut volume, form.file_system, files)?;
    let left = len as usize - volume.len();
    fill(&mut volume, left, ERASED)?;
    Ok(volume)
}

// The law of a number of 32 bits.
fn fits(attributes: u32)
    ensures { attributes < 2 ^ 32 }
{
    let _attributes = attributes;
}

// The law of a name's GUID and place.
fn is_whole(name: Option<VolumeName>)
    ensures { IsWhole name }
{
    if let Some(name) = name {
        has_sixteen(&name.guid.0);
        let _at = name.at;
    }
}

/// A volume of this form and of `len` bytes with these files, in order, and with this name if there is one.
///
/// Each file is at the next multiple of 8 after the header, or after the extended header if there is a name. It has a fixed checksum of its body and State
/// 0xF8. Each section is at the next multiple of 4 of the body, with zeros between. All other bytes are 0xFF. In FFS3 a section or a file that is too long for
/// its Size field becomes an extended section or a large file.
pub fn build(
    alloc: Global,
    form: &VolumeForm,
    name: Option<VolumeName>,
    files: &[NewFile],
    len: u64,
) -> Result<Seq<u8>, BuildFault>
    requires header { is_header_length form.now.header_len ≡ true }
    requires placed { is_placed form.now.header_len name ≡ true }
    requires most { len ≤ MOST_LEN }
    ensures sound { OnOk result (volume_fault form.now name files.now len ≡ None) }
    ensures built { IfOk result (λ volume. volume ≡ volume_bytes form.now name files.now len) }
    ensures read { IfOk result (IsReadAs form.now name files.now len) }
    ensures refused { IfErr result (IsRefusal form.now name files.now len) }
{
    check(form.file_system, front_len(form, name), files, len)?;
    have_whole_names(files);
    is_whole(name);
    fits(form.attributes);
    let volume = write(alloc, form, name, files, len)?;
    Ok(volume)
}

/// A volume without a name, as `build` lays it out.
pub fn build_as(
    alloc: Global,
    form: &VolumeForm,
    files: &[NewFile],
    len: u64,
) -> Result<Seq<u8>, BuildFault>
    requires header { is_header_length form.now.header_len ≡ true }
    requires most { len ≤ MOST_LEN }
    ensures sound { OnOk result (volume_fault form.now None files.now len ≡ None) }
    ensures built { IfOk result (λ volume. volume ≡ built_as form.now files.now len) }
    ensures read { IfOk result (IsReadBack files.now) }
    ensures refused { IfErr result (IsRefusal form.now None files.now len) }
{
    build(alloc, form, None, files, len)
}

/// An FFS2 volume of `len` bytes with these files, in order, as `build` lays it out. It has the usual header, with no attributes but its erase polarity.
pub fn build_volume(alloc: Global, files: &[NewFile], len: u64) -> Result<Seq<u8>, BuildFault>
    requires most { len ≤ MOST_LEN }
    ensures sound { OnOk result (volume_fault (plain Ffs2) None files.now len ≡ None) }
    ensures built { IfOk result (λ volume. volume ≡ built Ffs2 files.now len) }
    ensures read { IfOk result (IsReadBack files.now) }
    ensures refused { IfErr result (IsRefusal (plain Ffs2) None files.now len) }
{
    build_as(alloc, &VolumeForm::new(FileSystem::Ffs2), files, len)
}

/// An FFS3 volume of `len` bytes with these files, in order, as `build_volume`.
pub fn build_volume3(alloc: Global, files: &[NewFile], len: u64) -> Result<Seq<u8>, BuildFault>
    requires most { len ≤ MOST_LEN }
    ensures sound { OnOk result (volume_fault (plain Ffs3) None files.now len ≡ None) }
    ensures built { IfOk result (λ volume. volume ≡ built Ffs3 files.now len) }
    ensures read { IfOk result (IsReadBack files.now) }
    ensures refused { IfErr result (IsRefusal (plain Ffs3) None files.now len) }
{
    build_as(alloc, &VolumeForm::new(FileSystem::Ffs3), files, len)
}
