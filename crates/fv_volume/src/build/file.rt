//! Files as bytes.
ghost use Rattle.std.specs.Prelude.{◌≡◌, ◌<◌, ◌^◌, ◌++◌, length, OnOk, false, All};
ghost use Rattle.fv_volume.specs.Files.{bytes_in, file_bytes, has_long_section, is_file_too_long};
ghost use Rattle.fv_volume.specs.Building.{files_bytes};

use crate::ALIGNMENT;
use crate::build::file_header::{FileHead, put_file_header};
use crate::build::file_system::FileSystem;
use crate::build::fill::{fill, gap};
use crate::build::new_file::{Body, NewFile};
use crate::build::section::put_sections;
use crate::build::size::{body_len, file_size, is_large};
use crate::build::volume_header::ERASED;
use pi_base::{OutOfMemory, Seq};

// Adds what is after a file's header.
fn put_body(out: &mut Seq<u8>, file_system: FileSystem, body: &Body) -> Result<(), OutOfMemory>
    requires { has_long_section file_system body.now ≡ false }
    ensures { OnOk result (out.new ≡ out.old ++ bytes_in file_system body.now) }
{
    match body {
        Body::Sections(sections) => put_sections(out, file_system, sections.as_slice()),
        Body::Bytes(bytes) => out.append(bytes.as_slice()),
    }
}

// Adds a file.
fn put_file(out: &mut Seq<u8>, file_system: FileSystem, file: &NewFile) -> Result<(), OutOfMemory>
    requires short { is_file_too_long file_system file.now ≡ false }
    requires fits { length (bytes_in file_system file.now.body) < 2 ^ 32 }
    ensures { OnOk result (out.new ≡ out.old ++ file_bytes file_system file.now) }
{
    let body_len = body_len(file_system, &file.body);
    let head = FileHead {
        name: file.name,
        kind: file.kind,
        attributes: file.attributes,
        large: is_large(file_system, body_len),
        size: file_size(file_system, body_len) as u64,
    };
    put_file_header(out, &head)?;
    put_body(out, file_system, &file.body)
}

/// Adds the files of a volume after what is before them, the erased bytes between them too.
pub(crate) fn put_files(
    out: &mut Seq<u8>,
    file_system: FileSystem,
    files: &[NewFile],
) -> Result<(), OutOfMemory>
    requires short { All (λ file. is_file_too_long file_system file ≡ false) files.now }
    requires fits { length (files_bytes file_system (length out.old) files.now) < 2 ^ 32 }
    ensures { OnOk result (out.new ≡ out.old ++ files_bytes file_system (length out.old) files.now) }
{
    for file in files {
        let end = out.len();
        fill(out, gap(ALIGNMENT, end), ERASED)?;
        put_file(out, file_system, file)?;
    }
    Ok(())
}
