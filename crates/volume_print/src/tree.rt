// A volume's text, with the texts of the volumes nested in it.
ghost use Rattle.std.specs.Prelude.{◌≤◌, ◌<◌, ◌+◌, ℕ, length, map, IfOk, OnOk};
ghost use Rattle.fv_volume.specs.{Places.AreInside as AreFilesInside, Stream.AreInside};
ghost use Rattle.volume_print.specs.Description.{section_in, IsTextBy, IsInner};
ghost use Rattle.volume_print.specs.Finding.{IsForm, TellsVolume, AddsSection, AddsSections, AddsBody, AddsFile, AddsFiles};

use crate::file::{attributes_at, body_of as body_of_file, put_head, put_plain_body, sections_in};
use crate::form::{Form, Host, body_of, plain_form};
use crate::inner::{holds_volume, read_again, whole_volume};
use crate::law::one_text_by;
use crate::pad::{between, put_pads};
use crate::place::{behind, sections_len, stands};
use crate::section::put_form;
use crate::volume::{form_in, name_in, put_head as put_volume_head, put_name};
use fv_volume::build::{FileSystem, file_size, first_place};
use fv_volume::sections::Section;
use fv_volume::{FfsFile, Volume, one_reading};
use pi_base::{OutOfMemory, Seq};
use std::alloc::Global;

// The text of the volume that a section of a file is told as, where volumes are told at most so deep in it.
#[cycle(tree)]
fn nested_text(
    alloc: Global,
    host: &Host,
    kind: u8,
    bytes: &[u8],
    deep: usize,
) -> Result<Option<Seq<u8>>, OutOfMemory>
    ensures { IfOk result (TellsVolume (IsInner deep) host.now (record { kind = kind; body = bytes.now })) }
{
    if deep == 0 || !holds_volume(host, kind) {
        return Ok(None);
    }
    let Some(volume) = whole_volume(alloc, bytes)? else {
        return Ok(None);
    };
    one_reading();
    one_text_by();
    let text = text_by(alloc, bytes, &volume, deep - 1)?;
    read_again(alloc, text, bytes.len())
}

// In which form a section behind others of a file is told.
#[cycle(tree)]
fn form_of(
    alloc: Global,
    host: &Host,
    stream: &[u8],
    before: &[Section],
    section: &Section,
    deep: usize,
) -> Result<Form, OutOfMemory>
    requires before { AreInside stream.now before.now }
    requires inside { section.now.body_at + section.now.body_len ≤ length stream.now }
    ensures { IfOk result (IsForm (IsInner deep) host.now (map (section_in stream.now) before.now) (section_in stream.now section.now)) }
{
    let body = body_of(stream, section);
    match nested_text(alloc, host, section.kind, body, deep)? {
        Some(text) => Ok(Form::Volume(text)),
        None => plain_form(alloc, host, stream, before, section),
    }
}

// Adds the lines of a section behind others of a file.
#[cycle(tree)]
fn put_section(
    alloc: Global,
    out: &mut Seq<u8>,
    host: &Host,
    stream: &[u8],
    before: &[Section],
    section: &Section,
    deep: usize,
) -> Result<(), OutOfMemory>
    requires before { AreInside stream.now before.now }
    requires inside { section.now.body_at + section.now.body_len ≤ length stream.now }
    ensures { OnOk result (AddsSection (IsInner deep) host.now (map (section_in stream.now) before.now)
        (section_in stream.now section.now) out.old out.new) }
{
    let form = form_of(alloc, host, stream, before, section, deep)?;
    put_form(alloc, out, &form, section.kind, body_of(stream, section))
}

// Adds the lines of the sections of a file.
#[cycle(tree)]
fn put_sections(
    alloc: Global,
    out: &mut Seq<u8>,
    host: &Host,
    stream: &[u8],
    sections: &[Section],
    deep: usize,
) -> Result<(), OutOfMemory>
    requires { AreInside stream.now sections.now }
    ensures { OnOk result (AddsSections (IsInner deep) host.now (map (section_in stream.now) sections.now) out.old out.new) }
{
    'sections: for (place, section) in sections.iter().enumerate() {
        put_section(alloc, out, host, stream, &sections[..place], section, deep)?;
    }
    Ok(())
}

// Adds the lines of a file's body, and tells how many bytes it takes where it is built.
#[cycle(tree)]
fn put_body(
    alloc: Global,
    out: &mut Seq<u8>,
    file_system: FileSystem,
    host: &Host,
    body: &[u8],
    deep: usize,
) -> Result<usize, OutOfMemory>
    ensures { IfOk result (AddsBody (IsInner deep) file_system host.now body.now out.old out.new) }
{
    match sections_in(alloc, file_system, host.kind, body)? {
        Some(sections) => {
            put_sections(alloc, out, host, body, sections.as_slice(), deep)?;
            Ok(sections_len(file_system, body, sections.as_slice()))
        }
        None => {
            put_plain_body(out, body)?;
            Ok(body.len())
        }
    }
}

// Adds the lines of a file that may stand from a place on, behind those of its pads, and tells the least place behind it.
#[cycle(tree)]
fn put_file(
    alloc: Global,
    out: &mut Seq<u8>,
    file_system: FileSystem,
    bytes: &[u8],
    file: &FfsFile,
    from: usize,
    deep: usize,
) -> Result<usize, OutOfMemory>
    requires header { file.now.at < file.now.body_at }
    requires inside { file.now.body_at + file.now.body_len ≤ length bytes.now }
    ensures { IfOk result (λ next. AddsFile (IsInner deep) file_system bytes.now file.now from next out.old out.new) }
{
    let at = file.at as usize;
    put_pads(out, between(bytes, from, at))?;
    put_head(out, file.kind, &file.name, attributes_at(bytes, at))?;
    let host = Host {
        kind: file.kind,
        name: file.name,
    };
    let body = body_of_file(bytes, file);
    let body_len = put_body(alloc, out, file_system, &host, body, deep)?;
    Ok(behind(stands(from, at), file_size(file_system, body_len)))
}

// Adds the lines of files that may stand from a place on.
#[cycle(tree)]
fn put_files(
    alloc: Global,
    out: &mut Seq<u8>,
    file_system: FileSystem,
    bytes: &[u8],
    files: &[FfsFile],
    from: usize,
    deep: usize,
) -> Result<(), OutOfMemory>
    requires { AreFilesInside bytes.now files.now }
    ensures { OnOk result ((next : ℕ) × AddsFiles (IsInner deep) file_system bytes.now files.now from next out.old out.new) }
{
    let mut next = from;
    'files: for file in files {
        next = put_file(alloc, out, file_system, bytes, file, next, deep)?;
    }
    Ok(())
}

/// The text of a volume that was read, where volumes are told at most so deep in it.
#[cycle(tree)]
pub(crate) fn text_by(
    alloc: Global,
    bytes: &[u8],
    volume: &Volume,
    deep: usize,
) -> Result<Seq<u8>, OutOfMemory>
    requires { AreFilesInside bytes.now volume.now.files }
    ensures { IfOk result (IsTextBy (IsInner deep) bytes.now volume.now) }
{
    let form = form_in(bytes);
    let name = name_in(bytes, volume.name);
    let mut text = Seq::new(alloc);
    put_volume_head(&mut text, &form, volume.len)?;
    put_name(&mut text, name)?;
    let files = volume.files.as_slice();
    let first = first_place(&form, name);
    put_files(
        alloc,
        &mut text,
        form.file_system,
        bytes,
        files,
        first,
        deep,
    )?;
    text.append(b"end\n")?;
    Ok(text)
}
