// The line of an action.
ghost use Rattle.std.specs.Prelude.{◌≡◌, IfOk};
ghost use Rattle.source_words.specs.{Words.words, Reading.Gives, Operands.operands_at, Script.IsSaid};
ghost use Rattle.source_words.specs.Action.{other_phase, is_logged, code_of_name, log_of, logged, action_of};

use crate::script::fault::{LineFault, Stop};
use crate::script::line::{behind_blank, unindented};
use crate::script::operand::ended;
use crate::script::word::word;
use crate::script::word_source::Words;
use act_code::{Action, Code, are_printable, read_operands};
use asm_text::code_named;
use pi_base::{Phase, Seq};
use std::alloc::Global;

/// The length of the word `log`.
const LOG_LEN: usize = 3;

/// The most bytes of a text to be logged.
const MOST_LOGGED: usize = 64;

// The phase that is not this one.
fn other_phase(phase: Phase) -> Phase
    ensures { result ≡ other_phase phase }
{
    match phase {
        Phase::Pei => Phase::Dxe,
        Phase::Dxe => Phase::Pei,
    }
}

// The code of the action of the phase that has a name.
#[tactic(auto, unfolding(crate::specs::Action::code_of_name))]
fn code_of_name(phase: Phase, name: &[u8]) -> Result<Code, Stop>
    ensures { Gives (λ x. x) result (code_of_name phase name.now) }
{
    if let Some(code) = code_named(phase, name) {
        return Ok(code);
    }
    match code_named(other_phase(phase), name) {
        Some(_) => Err(Stop::Fault(LineFault::OtherPhase)),
        None => Err(Stop::Fault(LineFault::UnknownAction)),
    }
}

// Whether a text can be logged.
fn is_logged(text: &[u8]) -> bool
    ensures { result ≡ is_logged text.now }
{
    (1 <= text.len() && text.len() <= MOST_LOGGED) && are_printable(text)
}

// The action that logs a text.
fn log_of(alloc: Global, text: &[u8]) -> Result<Action, Stop>
    ensures { Gives (λ x. x) result (log_of text.now) }
{
    if !is_logged(text) {
        return Err(Stop::Fault(LineFault::Log));
    }
    let mut list = Seq::new(alloc);
    list.append(text)?;
    Ok(Action::Log { text: list })
}

// What stands behind `log` and one blank.
fn logged(line: &[u8]) -> &[u8]
    ensures { result.now ≡ logged line.now }
{
    let text = unindented(line);
    if text.len() < LOG_LEN {
        return &[];
    }
    let (_, rest) = text.split_at(LOG_LEN);
    behind_blank(rest)
}

// The action of a code, by the words behind its name. A text is no list of words.
fn operands(alloc: Global, code: Code, text: &[u8]) -> Result<Action, Stop>
    ensures { Gives (λ x. x) result (operands_at code (words text.now)) }
{
    match read_operands(alloc, code, Words { code, text }) {
        Ok((action, rest)) => ended(action, rest.text),
        Err(stop) => Err(stop),
    }
}

// The action of a phase that a line says.
#[tactic(auto, unfolding(crate::specs::Action::action_of))]
fn action_of(alloc: Global, phase: Phase, line: &[u8]) -> Result<Action, Stop>
    ensures { Gives (λ x. x) result (action_of phase line.now) }
{
    let (name, rest) = word(line)?;
    if name == b"log".as_slice() {
        log_of(alloc, logged(line))
    } else {
        let code = code_of_name(phase, name)?;
        operands(alloc, code, rest)
    }
}

/// The action of a phase that a line says: its name and its operands, or `log` and a text of 1 to 64 printable characters to the end of the line.
///
/// Blanks may stand in front; behind `log` stands one, and all else is its text. Numbers are decimal or have `0x` in front, GUIDs are those of `crate::guid_of`, and bytes are
/// hexadecimal digits to the end of the line.
pub fn read_action(alloc: Global, phase: Phase, line: &[u8]) -> Result<Action, Stop>
    // The answer is the action that the line says, or what is wrong with the first of its words with which none goes on, unless memory ran out.
    ensures read { Gives (λ x. x) result (action_of phase line.now) }
    // What is read is an action of the phase, with its operands in their ranges, registers below 16 and blocks below 64.
    ensures said { IfOk result (IsSaid phase) }
{
    action_of(alloc, phase, line)
}
