// Reading the text of a script, line by line.
ghost use Rattle.std.specs.Prelude.{◌≡◌, ◌≤◌, ◌<◌, ◌++◌, length, IfOk, IfErr};
ghost use Rattle.act_code.specs.{Script.script_bytes, declared.script.Script.Script};
ghost use Rattle.asm_text.specs.{Drafts.phase_of, ScriptText.line, ScriptText.phase_text};
ghost use Rattle.asm_text.specs.ReadScript.{IsScriptOf, IsScriptRefused, GivesScript};

use crate::draft::{add_line, is_whole};
use crate::fault::TextFault;
use crate::script_text::phase_text;
use act_code::{Script, Unread, WriteFault, write_script};
use line_words::printed::first_line;
use pi_base::{Phase, Seq};
use std::alloc::Global;

// The phase of a first line.
#[tactic(auto, unfolding(crate::specs::Drafts::phase_of))]
fn phase_of(line: &[u8]) -> Option<Phase>
    ensures { result ≡ phase_of line.now }
{
    if line == phase_text(Phase::Pei) {
        Some(Phase::Pei)
    } else if line == phase_text(Phase::Dxe) {
        Some(Phase::Dxe)
    } else {
        None
    }
}

// Reads the script of a phase from the lines after the first, or returns why they are not one.
fn read_lines(alloc: Global, phase: Phase, text: &[u8]) -> Result<Script, TextFault>
    ensures read { IfOk result (IsScriptOf (line (phase_text phase) ++ text.now)) }
    ensures refused { IfErr result (IsScriptRefused (line (phase_text phase) ++ text.now)) }
{
    let mut draft = Script {
        phase,
        blocks: Seq::new(alloc),
    };
    let mut rest = text;
    let mut number = 2u32;
    'lines: while !rest.is_empty() {
        let Some((line, after)) = first_line(rest) else {
            return Err(TextFault::Bad { line: number });
        };
        match add_line(alloc, &mut draft, line) {
            Ok(()) => {}
            Err(Unread::Malformed) => return Err(TextFault::Bad { line: number }),
            Err(Unread::Memory) => return Err(TextFault::Memory),
        }
        rest = after;
        number += 1;
    }
    if is_whole(&draft) {
        Ok(draft)
    } else {
        Err(TextFault::Bad { line: number })
    }
}

// Reads a script's text of any length, or returns why it is not one.
fn read_text(alloc: Global, text: &[u8]) -> Result<Script, TextFault>
    ensures read { IfOk result (IsScriptOf text.now) }
    ensures refused { IfErr result (IsScriptRefused text.now) }
{
    let Some((line, after)) = first_line(text) else {
        return Err(TextFault::Bad { line: 1 });
    };
    match phase_of(line) {
        Some(phase) => read_lines(alloc, phase, after),
        None => Err(TextFault::Bad { line: 1 }),
    }
}

// Reads a script's text within the limit, or returns why it is not one.
fn read_short(alloc: Global, text: &[u8]) -> Result<Script, TextFault>
    ensures read { IfOk result (IsScriptOf text.now) }
    ensures short { IfOk result (λ script. length (script_bytes script) ≤ 65536) }
    ensures refused { IfErr result (IsScriptRefused text.now) }
{
    let script = read_text(alloc, text)?;
    match write_script(alloc, &script) {
        Ok(_) => Ok(script),
        Err(WriteFault::TooLong) => Err(TextFault::TooLong),
        Err(WriteFault::Memory) => Err(TextFault::Memory),
    }
}

/// Reads the text of a script.
pub fn parse_script(alloc: Global, text: &[u8]) -> Result<Script, TextFault>
    // What is read is the script whose text this is, and its bytes keep their limit.
    ensures read { IfOk result (IsScriptOf text.now) }
    ensures short { IfOk result (λ script. length (script_bytes script) ≤ 65536) }
    // The text of such a script is read as it, unless memory ran out.
    ensures again { (script : Script) → IsScriptOf text.now script → length (script_bytes script) ≤ 65536 → GivesScript script result }
    // If nothing is read, the text is that of a longer script, or goes wrong with this line, or memory ran out.
    ensures refused { IfErr result (IsScriptRefused text.now) }
{
    read_short(alloc, text)
}
