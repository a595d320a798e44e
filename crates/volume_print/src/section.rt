// The lines of sections.
ghost use Rattle.std.specs.Prelude.{◌≡◌, ◌++◌, OnOk, flat_map};
ghost use Rattle.mod_catalog.specs.APrioriNames.{guids_in};
ghost use Rattle.volume_print.specs.Spelling.{expression_line, script_lines, guid_word, guids_line, ui_line, section_line};
ghost use Rattle.volume_print.specs.Finding.{form_text};

use crate::form::Form;
use crate::word::{phase_word, put_bytes, put_guid};
use act_code::Script;
use asm_text::{print_depex, print_script};
use depex_code::Depex;
use pi_base::{GUID_LEN, Guid, OutOfMemory, Phase, Seq};
use std::alloc::Global;

/// The length of the line with which the text of a script by itself begins: it names the phase.
const PHASE_LINE_LEN: usize = 10;

// Adds the line of an expression.
fn put_expression(
    alloc: Global,
    out: &mut Seq<u8>,
    phase: Phase,
    expression: &Depex,
) -> Result<(), OutOfMemory>
    ensures { OnOk result (out.new ≡ out.old ++ expression_line phase expression.now) }
{
    let text = print_depex(alloc, expression)?;
    out.append(b"depex ")?;
    out.append(phase_word(phase))?;
    out.append(b" ")?;
    out.append(text.as_slice())
}

// Adds the lines of a script.
fn put_script(alloc: Global, out: &mut Seq<u8>, script: &Script) -> Result<(), OutOfMemory>
    ensures { OnOk result (out.new ≡ out.old ++ script_lines script.now) }
{
    let text = print_script(alloc, script)?;
    out.append(b"script ")?;
    out.append(phase_word(script.phase))?;
    out.append(b"\n")?;
    let (_, blocks) = text.as_slice().split_at(PHASE_LINE_LEN);
    out.append(blocks)?;
    out.append(b"end\n")
}

// Adds the GUIDs that stand one behind the other in bytes, each behind a space.
fn put_guid_words(out: &mut Seq<u8>, bytes: &[u8]) -> Result<(), OutOfMemory>
    ensures { OnOk result (out.new ≡ out.old ++ flat_map guid_word (guids_in bytes.now)) }
{
    'guids: for index in 0..bytes.len() / GUID_LEN {
        out.append(b" ")?;
        put_guid(out, &Guid::at(bytes, GUID_LEN * index))?;
    }
    Ok(())
}

// Adds the line of a list of GUIDs.
fn put_guids(out: &mut Seq<u8>, bytes: &[u8]) -> Result<(), OutOfMemory>
    ensures { OnOk result (out.new ≡ out.old ++ guids_line bytes.now) }
{
    out.append(b"guids")?;
    put_guid_words(out, bytes)?;
    out.append(b"\n")
}

// Adds the line of a name.
fn put_name(out: &mut Seq<u8>, name: &[u8]) -> Result<(), OutOfMemory>
    ensures { OnOk result (out.new ≡ out.old ++ ui_line name.now) }
{
    out.append(b"ui ")?;
    out.append(name)?;
    out.append(b"\n")
}

// Adds the line of a section by its bytes.
fn put_plain(out: &mut Seq<u8>, kind: u8, bytes: &[u8]) -> Result<(), OutOfMemory>
    ensures { OnOk result (out.new ≡ out.old ++ section_line (record { kind = kind; body = bytes.now })) }
{
    out.append(b"section ")?;
    put_bytes(out, &[kind])?;
    out.append(b" ")?;
    put_bytes(out, bytes)?;
    out.append(b"\n")
}

/// Adds the lines of a section in a form.
pub(crate) fn put_form(
    alloc: Global,
    out: &mut Seq<u8>,
    form: &Form,
    kind: u8,
    bytes: &[u8],
) -> Result<(), OutOfMemory>
    ensures { OnOk result (out.new ≡ out.old ++ form_text (record { kind = kind; body = bytes.now }) form.now) }
{
    match form {
        Form::Expression(phase, expression) => put_expression(alloc, out, *phase, expression),
        Form::Volume(text) => out.append(text.as_slice()),
        Form::Guids => put_guids(out, bytes),
        Form::Script(script) => put_script(alloc, out, script),
        Form::Name(name) => put_name(out, name.as_slice()),
        Form::Bytes => put_plain(out, kind, bytes),
    }
}
