// The name of a module.
ghost use Rattle.std.specs.Prelude.{◌≡◌, ◌≤◌, ◌+◌, ◌==◌, IfOk, drop, find, length, option_map, take};
ghost use Rattle.fv_volume.specs.Stream.{AreInside};
ghost use Rattle.pi_base.specs.Field.{words_of};
ghost use Rattle.explain_text.specs.Title.{IsTitle, IsTitleIn, first_body, file_of};

use crate::catalog::file::file_body;
use crate::catalog::mapped::mapped_from;
use crate::catalog::name::name_in;
use fv_volume::sections::section_type::USER_INTERFACE;
use fv_volume::sections::{SecCause, Section, read_sections};
use mod_catalog::{Module, VolumeEntry};
use pi_base::{OutOfMemory, Seq};
use std::alloc::Global;

// The first section of the type.
fn user_interface(sections: &[Section]) -> Option<Section>
    ensures { result ≡ find (λ section. section.kind == USER_INTERFACE) sections.now }
{
    'sections: for section in sections.iter() {
        if section.kind == USER_INTERFACE {
            return Some(*section);
        }
    }
    None
}

// The body of a section.
fn section_body<'a>(body: &'a [u8], section: &Section) -> &'a [u8]
    requires { section.now.body_at + section.now.body_len ≤ length body.now }
    ensures { result.now ≡ take section.now.body_len (drop section.now.body_at body.now) }
{
    let at = section.body_at as usize;
    &body[at..at + section.body_len as usize]
}

// The body of the first user interface section of a file.
fn text_in<'a>(body: &'a [u8], sections: &[Section]) -> Option<&'a [u8]>
    requires { AreInside body.now sections.now }
    ensures { option_map (λ text. text.now) result ≡ first_body USER_INTERFACE body.now sections.now }
{
    match user_interface(sections) {
        Some(section) => Some(section_body(body, &section)),
        None => None,
    }
}

// The name of a file with this body.
fn title_in(alloc: Global, body: &[u8]) -> Result<Option<&[u8]>, OutOfMemory>
    ensures { IfOk result (λ title. IsTitleIn body.now (option_map (λ name. words_of name.now) title)) }
{
    match read_sections(alloc, body) {
        Ok(sections) => match text_in(body, sections.as_slice()) {
            Some(text) => Ok(name_in(text)),
            None => Ok(None),
        },
        Err(fault) => {
            if fault.cause == SecCause::Memory {
                return Err(OutOfMemory);
            }
            Ok(None)
        }
    }
}

// The file of a module, from its header to the end of the plan's volume.
fn file_of<'a>(volumes: &[VolumeEntry], images: &'a [Seq<u8>], member: &Module) -> &'a [u8]
    ensures { result.now ≡ file_of volumes.now images.now member.now }
{
    let Some(entry) = volumes.get(member.volume as usize) else {
        return &[];
    };
    let volume = mapped_from(volumes, images, entry.base);
    match volume.get(member.at as usize..) {
        Some(file) => file,
        None => &[],
    }
}

/// The name of a module of a catalogue: the code units of the text in the first user interface section of its file, two bytes each, which lie in the images of the plan's volumes.
/// None where the file has no such section or its text does not end with a null.
///
/// PI 1.8, volume 3, `EFI_SECTION_USER_INTERFACE`.
pub fn title_of<'a>(
    alloc: Global,
    volumes: &[VolumeEntry],
    images: &'a [Seq<u8>],
    member: &Module,
) -> Result<Option<&'a [u8]>, OutOfMemory>
    ensures { IfOk result
        (λ title. IsTitle volumes.now images.now member.now (option_map (λ name. words_of name.now) title)) }
{
    match file_body(file_of(volumes, images, member)) {
        Some(body) => title_in(alloc, body),
        None => Ok(None),
    }
}
