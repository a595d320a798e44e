// In which form the text tells a section.
ghost use Rattle.std.specs.Prelude.{◌≡◌, ◌≤◌, ◌+◌, ℕ, List, false, length, map, IfOk};
ghost use Rattle.std.specs.List.{list_any};
ghost use Rattle.fv_volume.specs.Stream.{AreInside};
ghost use Rattle.volume_text.specs.Open.{is_depex_of, is_script_of};
ghost use Rattle.volume_print.specs.{Description.section_in, Spelling.is_guid_list};
ghost use Rattle.volume_print.specs.Finding.{depex_phase, FindsExpression, FindsScript, IsPlainForm, TellsExpression, TellsName, TellsScript};

use act_code::{ActCause, Script, one_outcome, read_script};
use depex_code::{Depex, DepexFault, one_reading, read_depex, write_depex};
use fv_volume::file_type::FREEFORM;
use fv_volume::sections::Section;
use fv_volume::sections::section_type::{DXE_DEPEX, PEI_DEPEX, RAW, USER_INTERFACE};
use mod_catalog::{DXE_APRIORI, PEI_APRIORI};
use pi_base::{GUID_LEN, Guid, OutOfMemory, Phase, Seq};
use std::alloc::Global;
use volume_text::{depex_type, has_part, is_script, ui_name};

/// The file that sections stand in.
#[derive(Clone, Copy)]
pub(crate) struct Host {
    /// Its type.
    pub(crate) kind: u8,
    /// Its name.
    pub(crate) name: Guid,
}

/// In which form a section is told.
#[derive(Drop)]
pub(crate) enum Form {
    /// As an expression for a phase.
    Expression(Phase, Depex),
    /// As a volume, with this text.
    Volume(Seq<u8>),
    /// As a list of GUIDs.
    Guids,
    /// As a script.
    Script(Script),
    /// As a name.
    Name(Seq<u8>),
    /// As its bytes.
    Bytes,
}

/// The bytes of a section.
pub(crate) fn body_of<'a>(stream: &'a [u8], section: &Section) -> &'a [u8]
    requires { section.now.body_at + section.now.body_len ≤ length stream.now }
    ensures { result.now ≡ (section_in stream.now section.now).body }
{
    let at = section.body_at as usize;
    &stream[at..at + section.body_len as usize]
}

// The expression that bytes are, if they are one and nothing more.
fn expression_in(alloc: Global, phase: Phase, bytes: &[u8]) -> Result<Option<Depex>, OutOfMemory>
    ensures { IfOk result (FindsExpression phase bytes.now) }
{
    one_reading();
    let expression = match read_depex(alloc, bytes, phase) {
        Ok(expression) => expression,
        Err(DepexFault::Malformed(_)) => return Ok(None),
        Err(DepexFault::Memory) => return Err(OutOfMemory),
    };
    let spelled = write_depex(alloc, &expression)?;
    if spelled.as_slice() == bytes {
        Ok(Some(expression))
    } else {
        Ok(None)
    }
}

// The script that bytes are, if they are one.
fn script_in(alloc: Global, bytes: &[u8]) -> Result<Option<Script>, OutOfMemory>
    ensures { IfOk result (FindsScript bytes.now) }
{
    match read_script(alloc, bytes) {
        Ok(script) => Ok(Some(script)),
        Err(fault) => {
            if fault.cause == ActCause::Memory {
                return Err(OutOfMemory);
            }
            Ok(None)
        }
    }
}

// The phase whose expressions have sections of a type.
fn depex_phase(kind: u8) -> Option<Phase>
    ensures { result ≡ depex_phase kind }
{
    match kind {
        PEI_DEPEX => Some(Phase::Pei),
        DXE_DEPEX => Some(Phase::Dxe),
        _ => None,
    }
}

// Whether a section has the expression for a phase, whatever its bytes are.
fn is_depex_of(section: &Section, phase: Phase) -> bool
    ensures { (stream : List ℕ) → result ≡ is_depex_of phase (section_in stream section.now) }
{
    section.kind == depex_type(phase)
}

// Whether one of the sections has the expression for a phase.
fn has_depex(sections: &[Section], phase: Phase) -> bool
    ensures { (stream : List ℕ) → result ≡ list_any (is_depex_of phase) (map (section_in stream) sections.now) }
{
    'sections: for section in sections {
        if is_depex_of(section, phase) {
            return true;
        }
    }
    false
}

// The expression that a section behind others of a file of a type is told as.
#[tactic(auto, using(crate::proofs::Forms::no_type, crate::proofs::Forms::no_part, crate::proofs::Forms::no_bytes, crate::proofs::Forms::not_first_depex, crate::proofs::Forms::told))]
fn told_expression(
    alloc: Global,
    kind: u8,
    stream: &[u8],
    before: &[Section],
    section: &Section,
) -> Result<Option<(Phase, Depex)>, OutOfMemory>
    requires before { AreInside stream.now before.now }
    requires inside { section.now.body_at + section.now.body_len ≤ length stream.now }
    ensures { IfOk result (TellsExpression kind (map (section_in stream.now) before.now) (section_in stream.now section.now)) }
{
    let Some(phase) = depex_phase(section.kind) else {
        return Ok(None);
    };
    if !has_part(kind, phase) || has_depex(before, phase) {
        return Ok(None);
    }
    match expression_in(alloc, phase, body_of(stream, section))? {
        Some(expression) => Ok(Some((phase, expression))),
        None => Ok(None),
    }
}

// Whether a section is a script of a phase.
fn is_script_of(stream: &[u8], section: &Section, phase: Phase) -> bool
    requires { section.now.body_at + section.now.body_len ≤ length stream.now }
    ensures { result ≡ is_script_of phase (section_in stream.now section.now) }
{
    is_script(section.kind, body_of(stream, section), phase)
}

// Whether one of the sections is a script of a phase.
fn has_script(stream: &[u8], sections: &[Section], phase: Phase) -> bool
    requires { AreInside stream.now sections.now }
    ensures { result ≡ list_any (is_script_of phase) (map (section_in stream.now) sections.now) }
{
    'sections: for section in sections {
        if is_script_of(stream, section, phase) {
            return true;
        }
    }
    false
}

// Whether a section of a file is told as a list of GUIDs: the file has the names of the modules that start first.
fn is_guid_list(host: &Host, kind: u8, bytes: &[u8]) -> bool
    ensures { result ≡ is_guid_list host.now (record { kind = kind; body = bytes.now }) }
{
    host.kind == FREEFORM
        && (host.name == PEI_APRIORI || host.name == DXE_APRIORI)
        && kind == RAW
        && bytes.len() % GUID_LEN == 0
}

// The script that a section behind others of a file is told as, if it is no list of GUIDs.
#[tactic(auto, using(crate::proofs::Forms::not_raw, crate::proofs::Forms::no_script, crate::proofs::Forms::no_part_for, crate::proofs::Forms::not_first, crate::proofs::Forms::told_script))]
fn told_script(
    alloc: Global,
    host: &Host,
    stream: &[u8],
    before: &[Section],
    section: &Section,
) -> Result<Option<Script>, OutOfMemory>
    requires before { AreInside stream.now before.now }
    requires inside { section.now.body_at + section.now.body_len ≤ length stream.now }
    requires no_list { is_guid_list host.now (section_in stream.now section.now) ≡ false }
    ensures { IfOk result (TellsScript host.now (map (section_in stream.now) before.now) (section_in stream.now section.now)) }
{
    one_outcome();
    if section.kind != RAW {
        return Ok(None);
    }
    let Some(script) = script_in(alloc, body_of(stream, section))? else {
        return Ok(None);
    };
    if !has_part(host.kind, script.phase) || has_script(stream, before, script.phase) {
        return Ok(None);
    }
    Ok(Some(script))
}

// The name that a section is told as, if a word can say it.
fn told_name(alloc: Global, kind: u8, body: &[u8]) -> Result<Option<Seq<u8>>, OutOfMemory>
    ensures { IfOk result (TellsName (record { kind = kind; body = body.now })) }
{
    if kind == USER_INTERFACE {
        ui_name(alloc, body)
    } else {
        Ok(None)
    }
}

/// In which form a section behind others of a file is told, if it is told as no volume.
pub(crate) fn plain_form(
    alloc: Global,
    host: &Host,
    stream: &[u8],
    before: &[Section],
    section: &Section,
) -> Result<Form, OutOfMemory>
    requires before { AreInside stream.now before.now }
    requires inside { section.now.body_at + section.now.body_len ≤ length stream.now }
    ensures { IfOk result (IsPlainForm host.now (map (section_in stream.now) before.now) (section_in stream.now section.now)) }
{
    let body = body_of(stream, section);
    if let Some((phase, expression)) = told_expression(alloc, host.kind, stream, before, section)? {
        return Ok(Form::Expression(phase, expression));
    }
    if is_guid_list(host, section.kind, body) {
        return Ok(Form::Guids);
    }
    if let Some(script) = told_script(alloc, host, stream, before, section)? {
        return Ok(Form::Script(script));
    }
    match told_name(alloc, section.kind, body)? {
        Some(name) => Ok(Form::Name(name)),
        None => Ok(Form::Bytes),
    }
}
