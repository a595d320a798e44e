// What is open behind some lines of a text: volumes, one in a file of the other, and in the last file of the innermost maybe a script.
ghost use Rattle.std.specs.Prelude.{◌≡◌, ◌<◌, ◌^◌, Ok, IfOk, take};
ghost use Rattle.volume_text.specs.Reading.{Gives};
ghost use Rattle.volume_text.specs.Open.{holding, with_bytes, section_added, last_body_set, with_new_file, with_file, pad_file, with_name, is_in_range, depex_type, has_part, is_depex_of, has_depex, script_front, is_script_of, has_script, IsLastFile, part_checked, script_checked, depex_checked, stop_of, built_of};

use crate::fault::{Cause, Stop};
use crate::word::{is_header, is_length};
use fv_volume::build::{
    Body, BuildFault, FileAttributes, NewFile, NewSection, VolumeForm, VolumeName, build, is_placed,
};
use fv_volume::file_type::{COMBINED_MM_DXE, COMBINED_PEIM_DRIVER, DRIVER, PAD, PEIM};
use fv_volume::sections::section_type::{DXE_DEPEX, PEI_DEPEX, RAW};
use pi_base::{Guid, OutOfMemory, Phase, Seq};
use std::alloc::Global;

// An erased byte: a pad file has them as its name and in its body.
const ERASED: u8 = 0xff;

/// A volume whose `end` has not come yet.
#[derive(Drop)]
pub struct OpenVolume {
    /// Its file system, its attributes and its header's length.
    pub form: VolumeForm,
    /// Its length.
    pub len: u64,
    /// Its name, if a line has told one.
    pub name: Option<VolumeName>,
    /// Its files so far. The last one may get sections.
    pub files: Seq<NewFile>,
}

// Gives a file one more section, unless its body is bytes.
fn hold(file: &mut NewFile, section: NewSection) -> Result<(), Stop>
    ensures { Gives (λ _. file.new) result (holding section file.old) }
{
    match &mut file.body {
        Body::Sections(sections) => {
            sections.push(section)?;
            Ok(())
        }
        Body::Bytes(_) => Err(Stop::Fault(Cause::TwoBodies)),
    }
}

// Makes these bytes the body of a file, unless it has sections or bytes.
fn fill(file: &mut NewFile, bytes: Seq<u8>) -> Result<(), Stop>
    ensures { Gives (λ _. file.new) result (with_bytes bytes file.old) }
{
    match &file.body {
        Body::Sections(sections) if sections.is_empty() => {}
        _ => return Err(Stop::Fault(Cause::TwoBodies)),
    }
    file.body = Body::Bytes(bytes);
    Ok(())
}

/// Gives the last file of a volume one more section.
pub(crate) fn add_section(volume: &mut OpenVolume, section: NewSection) -> Result<(), Stop>
    ensures { Gives (λ _. volume.new) result (section_added volume.old section) }
{
    let Some(mut last) = volume.files.pop() else {
        return Err(Stop::Fault(Cause::NoFile));
    };
    match hold(&mut last, section) {
        Ok(()) => {
            volume.files.push(last)?;
            Ok(())
        }
        Err(stop) => {
            drop(last);
            Err(stop)
        }
    }
}

/// Makes these bytes the body of the last file of a volume.
pub(crate) fn set_last_body(volume: &mut OpenVolume, bytes: Seq<u8>) -> Result<(), Stop>
    ensures { Gives (λ _. volume.new) result (last_body_set volume.old bytes) }
{
    let Some(mut last) = volume.files.pop() else {
        return Err(Stop::Fault(Cause::NoFile));
    };
    match fill(&mut last, bytes) {
        Ok(()) => {
            volume.files.push(last)?;
            Ok(())
        }
        Err(stop) => {
            drop(last);
            Err(stop)
        }
    }
}

/// Gives a volume one more file, which has no section yet.
pub(crate) fn add_file(
    alloc: Global,
    volume: &mut OpenVolume,
    kind: u8,
    name: Guid,
    attributes: FileAttributes,
) -> Result<(), Stop>
    ensures { Gives (λ _. volume.new) result (Ok (with_file volume.old kind name attributes)) }
{
    volume.files.push(NewFile {
        name,
        kind,
        attributes,
        body: Body::Sections(Seq::new(alloc)),
    })?;
    Ok(())
}

// A pad file with so many bytes of body.
fn pad_file(alloc: Global, len: u64) -> Result<NewFile, OutOfMemory>
    ensures { IfOk result (λ file. file ≡ pad_file len) }
{
    match vec![in alloc; ERASED; len as usize] {
        Ok(bytes) => Ok(NewFile {
            name: Guid([ERASED; 16]),
            kind: PAD,
            attributes: FileAttributes::new(),
            body: Body::Bytes(Seq::from_vec(bytes)),
        }),
        Err(_) => Err(OutOfMemory),
    }
}

/// Gives a volume one more pad file.
pub(crate) fn add_pad(alloc: Global, volume: &mut OpenVolume, len: u64) -> Result<(), OutOfMemory>
    ensures { IfOk result (λ _. volume.new ≡ with_new_file volume.old (pad_file len)) }
{
    let file = pad_file(alloc, len)?;
    volume.files.push(file)?;
    Ok(())
}

/// Gives a volume this name, if it has none yet and its header ends in front of it.
pub(crate) fn set_name(volume: &mut OpenVolume, name: VolumeName) -> Result<(), Stop>
    ensures { Gives (λ _. volume.new) result (with_name volume.old name) }
{
    if volume.name.is_some() {
        return Err(Stop::Fault(Cause::TwoNames));
    }
    if !is_placed(&volume.form, Some(name)) {
        return Err(Stop::Fault(Cause::Range));
    }
    volume.name = Some(name);
    Ok(())
}

/// The type of the section with the expression for a phase.
pub fn depex_type(phase: Phase) -> u8
    ensures { result ≡ depex_type phase }
{
    match phase {
        Phase::Pei => PEI_DEPEX,
        Phase::Dxe => DXE_DEPEX,
    }
}

/// Whether a file of a type has a part for a phase: an expression and a script.
pub fn has_part(kind: u8, phase: Phase) -> bool
    ensures { result ≡ has_part kind phase }
{
    match phase {
        Phase::Pei => kind == PEIM || kind == COMBINED_PEIM_DRIVER,
        Phase::Dxe => kind == DRIVER || kind == COMBINED_PEIM_DRIVER || kind == COMBINED_MM_DXE,
    }
}

// The first bytes, as many as tell a script.
fn front_of(body: &[u8]) -> &[u8]
    ensures { result.now ≡ take 6 body.now }
{
    if body.len() < 6 {
        return body;
    }
    let (front, _) = body.split_at(6);
    front
}

// What a script of a phase begins with.
fn script_front(phase: Phase) -> [u8; 6]
    ensures { result ≡ script_front phase }
{
    match phase {
        Phase::Pei => *b"PIAS\x01\x01",
        Phase::Dxe => *b"PIAS\x01\x02",
    }
}

/// Whether a section of this type and with this body is told as a script of a phase, by its first bytes.
pub fn is_script(kind: u8, body: &[u8], phase: Phase) -> bool
    ensures { result ≡ is_script_of phase (record { kind = kind; body = body.now }) }
{
    kind == RAW && front_of(body) == script_front(phase).as_slice()
}

// Whether a file has a script of a phase.
fn has_script(file: &NewFile, phase: Phase) -> bool
    ensures { result ≡ has_script phase file.now }
{
    let Body::Sections(sections) = &file.body else {
        return false;
    };
    'sections: for section in sections.as_slice() {
        if is_script(section.kind, section.body.as_slice(), phase) {
            return true;
        }
    }
    false
}

// Whether a section has the expression for a phase.
fn is_depex_of(section: &NewSection, phase: Phase) -> bool
    ensures { result ≡ is_depex_of phase section.now }
{
    section.kind == depex_type(phase)
}

// Whether a file has an expression for a phase.
fn has_depex(file: &NewFile, phase: Phase) -> bool
    ensures { result ≡ has_depex phase file.now }
{
    let Body::Sections(sections) = &file.body else {
        return false;
    };
    'sections: for section in sections.as_slice() {
        if is_depex_of(section, phase) {
            return true;
        }
    }
    false
}

// The last of the files.
fn last_file(files: &[NewFile]) -> Option<&NewFile>
    ensures { IsLastFile result files.now }
{
    match files {
        [.., last] => Some(last),
        [] => None,
    }
}

/// That the last file has a part for a phase.
pub(crate) fn part_checked(volume: &OpenVolume, phase: Phase) -> Result<(), Stop>
    ensures { Gives (λ x. x) result (part_checked phase volume.now) }
{
    match last_file(volume.files.as_slice()) {
        Some(last) => {
            if has_part(last.kind, phase) {
                Ok(())
            } else {
                Err(Stop::Fault(Cause::NoPart))
            }
        }
        None => Err(Stop::Fault(Cause::NoFile)),
    }
}

/// That the last file may get a script of a phase.
pub(crate) fn script_checked(volume: &OpenVolume, phase: Phase) -> Result<(), Stop>
    ensures { Gives (λ x. x) result (script_checked phase volume.now) }
{
    part_checked(volume, phase)?;
    match last_file(volume.files.as_slice()) {
        Some(last) => {
            if has_script(last, phase) {
                Err(Stop::Fault(Cause::TwoScripts))
            } else {
                Ok(())
            }
        }
        None => Err(Stop::Fault(Cause::NoFile)),
    }
}

/// That the last file may get an expression for a phase.
pub(crate) fn depex_checked(volume: &OpenVolume, phase: Phase) -> Result<(), Stop>
    ensures { Gives (λ x. x) result (depex_checked phase volume.now) }
{
    part_checked(volume, phase)?;
    match last_file(volume.files.as_slice()) {
        Some(last) => {
            if has_depex(last, phase) {
                Err(Stop::Fault(Cause::TwoDepex))
            } else {
                Ok(())
            }
        }
        None => Err(Stop::Fault(Cause::NoFile)),
    }
}

// What stands against a volume, as what is wrong with its `end`.
fn stop_of(fault: BuildFault) -> Stop
    ensures { result ≡ stop_of fault }
{
    match fault {
        BuildFault::TooMany => Stop::Fault(Cause::TooMany),
        BuildFault::Size => Stop::Fault(Cause::Size),
        BuildFault::NoRoom { need, .. } => Stop::Fault(Cause::NoRoom { need }),
        BuildFault::Memory => Stop::Memory,
    }
}

// The law of a number of 32 bits.
fn fits(attributes: u32)
    ensures { attributes < 2 ^ 32 }
{
    let _attributes = attributes;
}

// Whether all numbers of a volume are in their ranges.
#[tactic(auto, using(crate::proofs::Building::in_range))]
fn is_in_range(volume: &OpenVolume) -> bool
    ensures { result ≡ is_in_range volume.now }
{
    fits(volume.form.attributes);
    is_length(volume.len)
        && is_header(volume.len, u64::from(volume.form.header_len))
        && is_placed(&volume.form, volume.name)
}

/// The bytes of a volume at its `end`.
#[tactic(auto, using(crate::proofs::Building::built_there, crate::proofs::Building::refused_there, crate::proofs::Building::out_of_range, crate::proofs::Building::header_fits, crate::proofs::Building::name_fits, crate::proofs::Building::length_fits))]
pub(crate) fn built_of(alloc: Global, volume: &OpenVolume) -> Result<Seq<u8>, Stop>
    ensures { Gives (λ x. x) result (built_of volume.now) }
{
    if !is_in_range(volume) {
        return Err(Stop::Fault(Cause::Range));
    }
    match build(
        alloc,
        &volume.form,
        volume.name,
        volume.files.as_slice(),
        volume.len,
    ) {
        Ok(bytes) => Ok(bytes),
        Err(fault) => Err(stop_of(fault)),
    }
}
