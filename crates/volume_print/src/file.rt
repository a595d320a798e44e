// A file's own line, and what is found of its body.
ghost use Rattle.std.specs.Prelude.{◌≡◌, ◌≤◌, ◌<◌, ◌+◌, ◌++◌, length, slice_index, take, drop, OnOk, IfOk};
ghost use Rattle.fv_volume.specs.Attributes.{attributes_in};
ghost use Rattle.volume_print.specs.Spelling.{fixed_words, alignment_words, body_line, head_line};
ghost use Rattle.volume_print.specs.{Description.IsStream, Finding.ReadsSections};

use crate::place::sections_len;
use crate::word::{put_bytes, put_decimal, put_guid, put_type};
use fv_volume::FfsFile;
use fv_volume::build::{FileAttributes, FileSystem};
use fv_volume::file_header::ATTRIBUTES_AT;
use fv_volume::file_type::RAW;
use fv_volume::sections::{SecCause, Section, read_sections};
use pi_base::{Guid, OutOfMemory, Seq};
use std::alloc::Global;

// The sections that are read of a body, or none where they cannot be read.
fn sections_of(alloc: Global, body: &[u8]) -> Result<Option<Seq<Section>>, OutOfMemory>
    ensures { IfOk result (ReadsSections body.now) }
{
    match read_sections(alloc, body) {
        Ok(sections) => Ok(Some(sections)),
        Err(fault) => {
            if fault.cause == SecCause::Memory {
                return Err(OutOfMemory);
            }
            Ok(None)
        }
    }
}

/// The sections by which a body is told, or none.
#[tactic(auto, using(crate::proofs::Streams::as_built, crate::proofs::Streams::not_as_built))]
pub(crate) fn sections_in(
    alloc: Global,
    file_system: FileSystem,
    kind: u8,
    body: &[u8],
) -> Result<Option<Seq<Section>>, OutOfMemory>
    ensures { IfOk result (IsStream file_system kind body.now) }
{
    if kind == RAW {
        return Ok(None);
    }
    let Some(sections) = sections_of(alloc, body)? else {
        return Ok(None);
    };
    let built = sections_len(file_system, body, sections.as_slice());
    if built == body.len() {
        Ok(Some(sections))
    } else {
        Ok(None)
    }
}

/// Adds the line of a body that is no sections.
pub(crate) fn put_plain_body(out: &mut Seq<u8>, body: &[u8]) -> Result<(), OutOfMemory>
    ensures { OnOk result (out.new ≡ out.old ++ body_line body.now) }
{
    out.append(b"body ")?;
    put_bytes(out, body)?;
    out.append(b"\n")
}

// Adds the words of attributes.
fn put_attributes(out: &mut Seq<u8>, attributes: FileAttributes) -> Result<(), OutOfMemory>
    ensures { OnOk result (out.new ≡ out.old ++ (fixed_words attributes.fixed ++ alignment_words attributes.alignment)) }
{
    if attributes.fixed {
        out.append(b" fixed")?;
    }
    let alignment = attributes.alignment.len();
    if alignment == 1 {
        return Ok(());
    }
    out.append(b" align ")?;
    put_decimal(out, alignment)
}

/// Adds a file's own line.
pub(crate) fn put_head(
    out: &mut Seq<u8>,
    kind: u8,
    name: &Guid,
    attributes: FileAttributes,
) -> Result<(), OutOfMemory>
    ensures { OnOk result (out.new ≡ out.old ++ head_line kind name.now attributes) }
{
    out.append(b"file ")?;
    put_type(out, kind)?;
    out.append(b" ")?;
    put_guid(out, name)?;
    put_attributes(out, attributes)?;
    out.append(b"\n")
}

/// The attributes of the file whose header stands at a place.
pub(crate) fn attributes_at(bytes: &[u8], at: usize) -> FileAttributes
    requires { at < length bytes.now }
    ensures { result ≡ attributes_in (slice_index bytes.now (at + ATTRIBUTES_AT)) }
{
    match bytes.get(at + ATTRIBUTES_AT) {
        Some(byte) => FileAttributes::of_byte(*byte),
        None => FileAttributes::of_byte(0),
    }
}

/// The bytes behind a file's header.
pub(crate) fn body_of<'a>(bytes: &'a [u8], file: &FfsFile) -> &'a [u8]
    requires { file.now.body_at + file.now.body_len ≤ length bytes.now }
    ensures { result.now ≡ take file.now.body_len (drop file.now.body_at bytes.now) }
{
    let at = file.body_at as usize;
    &bytes[at..at + file.body_len as usize]
}
