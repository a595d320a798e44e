// What a volume's headers say, and the first lines of its text.
ghost use Rattle.std.specs.Prelude.{◌≡◌, ◌++◌, OnOk};
ghost use Rattle.volume_print.specs.Spelling.{attribute_words, number_words, volume_line, name_line};
ghost use Rattle.volume_print.specs.Description.{form_in, name_in};

use crate::word::{put_decimal, put_guid, put_hexadecimal, system_word};
use fv_volume::build::{EXT_AT, EXT_HEADER_LEN, FileSystem, HEADER_LEN, VolumeForm, VolumeName};
use fv_volume::volume_header::{
    ATTRIBUTES_AT, ERASE_POLARITY, EXT_HEADER_OFFSET_AT, FFS3, FILE_SYSTEM_AT, HEADER_LENGTH_AT,
    LEAST_LEN,
};
use pi_base::{GUID_LEN, Guid, OutOfMemory, Seq, u16_at, u32_at};

/// The form of the volume whose header stands at the start of the bytes.
pub(crate) fn form_in(bytes: &[u8]) -> VolumeForm
    ensures { result ≡ form_in bytes.now }
{
    if bytes.len() < LEAST_LEN {
        return VolumeForm::new(FileSystem::Ffs2);
    }
    let guid = &bytes[FILE_SYSTEM_AT..FILE_SYSTEM_AT + GUID_LEN];
    let file_system = if guid == FFS3.as_slice() {
        FileSystem::Ffs3
    } else {
        FileSystem::Ffs2
    };
    let attributes = u32_at(bytes, ATTRIBUTES_AT);
    VolumeForm {
        file_system,
        // The attributes of a volume that is erased to zeros have no text.
        attributes: if attributes & ERASE_POLARITY == 0 {
            0
        } else {
            attributes ^ ERASE_POLARITY
        },
        header_len: u16_at(bytes, HEADER_LENGTH_AT),
    }
}

/// The name of a volume whose header stands at the start of the bytes, with the place that the header says.
pub(crate) fn name_in(bytes: &[u8], name: Option<Guid>) -> Option<VolumeName>
    ensures { result ≡ name_in bytes.now name }
{
    let Some(guid) = name else {
        return None;
    };
    if bytes.len() < LEAST_LEN {
        return None;
    }
    let at = u16_at(bytes, EXT_HEADER_OFFSET_AT);
    let place = usize::from(at);
    if bytes.len() < place + EXT_HEADER_LEN as usize {
        return None;
    }
    Some(VolumeName {
        guid,
        at,
        size: u32_at(bytes, place + GUID_LEN),
    })
}

// Adds a word and a number, each behind a space, or nothing where the number is the usual one.
fn put_number(out: &mut Seq<u8>, key: &[u8], usual: u64, n: u64) -> Result<(), OutOfMemory>
    ensures { OnOk result (out.new ≡ out.old ++ number_words key.now usual n) }
{
    if n == usual {
        return Ok(());
    }
    out.append(key)?;
    put_decimal(out, n)
}

// Adds the words of a volume's attributes.
fn put_attributes(out: &mut Seq<u8>, attributes: u32) -> Result<(), OutOfMemory>
    ensures { OnOk result (out.new ≡ out.old ++ attribute_words attributes) }
{
    if attributes == 0 {
        return Ok(());
    }
    out.append(b" attributes ")?;
    put_hexadecimal(out, u64::from(attributes))
}

/// Adds a volume's own line.
pub(crate) fn put_head(out: &mut Seq<u8>, form: &VolumeForm, len: u64) -> Result<(), OutOfMemory>
    ensures { OnOk result (out.new ≡ out.old ++ volume_line form.now len) }
{
    out.append(b"volume ")?;
    put_decimal(out, len)?;
    out.append(b" ")?;
    out.append(system_word(form.file_system))?;
    put_number(
        out,
        b" header ",
        HEADER_LEN as u64,
        u64::from(form.header_len),
    )?;
    put_attributes(out, form.attributes)?;
    out.append(b"\n")
}

/// Adds the line of a name, where there is one.
pub(crate) fn put_name(out: &mut Seq<u8>, name: Option<VolumeName>) -> Result<(), OutOfMemory>
    ensures { OnOk result (out.new ≡ out.old ++ name_line name) }
{
    let Some(name) = name else {
        return Ok(());
    };
    out.append(b"name ")?;
    put_guid(out, &name.guid)?;
    put_number(out, b" at ", u64::from(EXT_AT), u64::from(name.at))?;
    put_number(
        out,
        b" size ",
        u64::from(EXT_HEADER_LEN),
        u64::from(name.size),
    )?;
    out.append(b"\n")
}
