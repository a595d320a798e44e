//! Sections as bytes.
ghost use Rattle.std.specs.Prelude.{◌≡◌, ◌++◌, length, OnOk, false, All};
ghost use Rattle.fv_volume.specs.Sections.{is_extended, section_header, section_bytes, body_bytes, is_section_too_long};

use crate::build::file_system::FileSystem;
use crate::build::fill::{fill, gap};
use crate::build::new_file::NewSection;
use crate::build::size::{is_extended, section_size};
use crate::sections::ALIGNMENT;
use crate::sections::section_header::EXTENDED;
use pi_base::{OutOfMemory, Seq, put_u24, put_u32};

// Adds the header of a section.
fn put_header(
    out: &mut Seq<u8>,
    file_system: FileSystem,
    section: &NewSection,
) -> Result<(), OutOfMemory>
    requires { is_section_too_long file_system section.now ≡ false }
    ensures { OnOk result (out.new ≡ out.old ++ section_header file_system section.now.kind (length section.now.body)) }
{
    let body_len = section.body.len();
    let size = section_size(file_system, body_len);
    let mut header = [0, 0, 0, section.kind];
    if is_extended(file_system, body_len) {
        put_u24(&mut header, 0, EXTENDED);
        let mut extended_size = [0; 4];
        put_u32(&mut extended_size, 0, size as u32);
        out.append(&header)?;
        out.append(&extended_size)
    } else {
        put_u24(&mut header, 0, size as u32);
        out.append(&header)
    }
}

// Adds a section.
fn put_section(
    out: &mut Seq<u8>,
    file_system: FileSystem,
    section: &NewSection,
) -> Result<(), OutOfMemory>
    requires { is_section_too_long file_system section.now ≡ false }
    ensures { OnOk result (out.new ≡ out.old ++ section_bytes file_system section.now) }
{
    put_header(out, file_system, section)?;
    out.append(section.body.as_slice())
}

/// Adds the sections of a file, the zeros between them too.
pub(crate) fn put_sections(
    out: &mut Seq<u8>,
    file_system: FileSystem,
    sections: &[NewSection],
) -> Result<(), OutOfMemory>
    requires { All (λ section. is_section_too_long file_system section ≡ false) sections.now }
    ensures { OnOk result (out.new ≡ out.old ++ body_bytes file_system sections.now) }
{
    let start = out.len();
    for section in sections {
        let end = out.len() - start;
        fill(out, gap(ALIGNMENT, end), 0)?;
        put_section(out, file_system, section)?;
    }
    Ok(())
}
