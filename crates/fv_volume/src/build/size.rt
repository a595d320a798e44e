//! Sizes, known before a byte is written. A size of 2^64 or more is given as 2^64 - 1.
ghost use Rattle.std.specs.Prelude.{◌≡◌, ◌-◌, ◌^◌, length, min, All};
ghost use Rattle.std.specs.List.{list_any};
ghost use Rattle.fv_volume.specs.Sections.{is_extended, section_size, body_bytes, is_section_too_long};
ghost use Rattle.fv_volume.specs.Files.{bytes_in, has_long_section, is_large, file_size, is_file_too_long, HasWholeName};
ghost use Rattle.fv_volume.specs.Building.{need};

use crate::build::file_system::{FileSystem, MOST_EXTENDED_SIZE, MOST_SIZE};
use crate::build::fill::gap;
use crate::build::new_file::{Body, NewFile, NewSection};
use crate::file_header;
use crate::sections::section_header;

/// Whether a section with so many bytes of body is extended.
pub(crate) fn is_extended(file_system: FileSystem, body_len: usize) -> bool
    ensures { result ≡ is_extended file_system body_len }
{
    file_system == FileSystem::Ffs3 && body_len > MOST_SIZE - section_header::HEADER_LEN
}

/// The size in bytes of a section with a body of so many bytes, with its header.
pub fn section_size(file_system: FileSystem, body_len: usize) -> usize
    ensures { result ≡ min (section_size file_system body_len) (2 ^ 64 - 1) }
{
    let header_len = if is_extended(file_system, body_len) {
        section_header::EXTENDED_HEADER_LEN
    } else {
        section_header::HEADER_LEN
    };
    body_len.saturating_add(header_len)
}

// Whether a section is too long for its size fields.
fn is_section_too_long(file_system: FileSystem, section: &NewSection) -> bool
    ensures { result ≡ is_section_too_long file_system section.now }
{
    let most = match file_system {
        FileSystem::Ffs2 => MOST_SIZE,
        FileSystem::Ffs3 => MOST_EXTENDED_SIZE,
    };
    section_size(file_system, section.body.len()) > most
}

// The bytes of a file's sections, those between them too.
fn sections_len(file_system: FileSystem, sections: &[NewSection]) -> usize
    ensures { result ≡ min (length (body_bytes file_system sections.now)) (2 ^ 64 - 1) }
{
    let mut end = 0usize;
    for section in sections {
        end = end
            .saturating_add(gap(crate::sections::ALIGNMENT, end))
            .saturating_add(section_size(file_system, section.body.len()));
    }
    end
}

/// The bytes after a file's header.
pub(crate) fn body_len(file_system: FileSystem, body: &Body) -> usize
    ensures { result ≡ min (length (bytes_in file_system body.now)) (2 ^ 64 - 1) }
{
    match body {
        Body::Sections(sections) => sections_len(file_system, sections.as_slice()),
        Body::Bytes(bytes) => bytes.len(),
    }
}

/// Whether a file with so many bytes of body is large.
pub(crate) fn is_large(file_system: FileSystem, body_len: usize) -> bool
    ensures { result ≡ is_large file_system body_len }
{
    file_system == FileSystem::Ffs3 && body_len > MOST_SIZE - file_header::HEADER_LEN
}

/// The size in bytes of a file with a body of so many bytes, with its header.
pub fn file_size(file_system: FileSystem, body_len: usize) -> usize
    ensures { result ≡ min (file_size file_system body_len) (2 ^ 64 - 1) }
{
    let header_len = if is_large(file_system, body_len) {
        file_header::LARGE_HEADER_LEN
    } else {
        file_header::HEADER_LEN
    };
    body_len.saturating_add(header_len)
}

// Whether one of the sections is too long for its size fields.
fn is_one_too_long(file_system: FileSystem, sections: &[NewSection]) -> bool
    ensures { result ≡ list_any (is_section_too_long file_system) sections.now }
{
    sections
        .iter()
        .any(|section| is_section_too_long(file_system, section))
}

// Whether a section of a body is too long for its size fields.
fn has_long_section(file_system: FileSystem, body: &Body) -> bool
    ensures { result ≡ has_long_section file_system body.now }
{
    match body {
        Body::Sections(sections) => is_one_too_long(file_system, sections.as_slice()),
        Body::Bytes(_) => false,
    }
}

// Whether a section of a file, or the file, is too long for its size fields.
fn is_file_too_long(file_system: FileSystem, file: &NewFile) -> bool
    ensures { result ≡ is_file_too_long file_system file.now }
{
    has_long_section(file_system, &file.body)
        || (file_system == FileSystem::Ffs2
            && body_len(file_system, &file.body) > MOST_SIZE - file_header::HEADER_LEN)
}

/// Whether one of the sections or files is too long for its size fields.
pub(crate) fn is_too_long(file_system: FileSystem, files: &[NewFile]) -> bool
    ensures { result ≡ list_any (is_file_too_long file_system) files.now }
{
    files.iter().any(|file| is_file_too_long(file_system, file))
}

/// The law of a GUID's length.
pub(crate) fn has_sixteen(guid: &[u8; 16])
    ensures { length guid.now ≡ 16 }
{
    let _bytes = *guid;
}

/// The law that each file's name has sixteen bytes.
pub(crate) fn have_whole_names(files: &[NewFile])
    ensures { All HasWholeName files.now }
{
    for file in files {
        has_sixteen(&file.name.0);
    }
}

/// The bytes of a volume up to the end of its last file, if the files begin at `from`.
pub(crate) fn need(file_system: FileSystem, from: usize, files: &[NewFile]) -> usize
    ensures { result ≡ min (need file_system from files.now) (2 ^ 64 - 1) }
{
    let mut end = from;
    for file in files {
        has_sixteen(&file.name.0);
        let body_len = body_len(file_system, &file.body);
        end = end
            .saturating_add(gap(crate::ALIGNMENT, end))
            .saturating_add(file_size(file_system, body_len));
    }
    end
}
