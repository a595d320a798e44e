// The line of an action: its name, and its operands.
ghost use Rattle.std.specs.Prelude.{◌≡◌};
ghost use Rattle.act_code.specs.Reading.{Gives};
ghost use Rattle.asm_text.specs.{OperandReading.operands_at, LineReading.code_named, LineReading.action_of};

use crate::line_source::Line;
use crate::operand_reading::ended;
use crate::word::space_place;
use act_code::{Action, CODES, Code, Unread, read_operands};
use pi_base::Phase;
use std::alloc::Global;

/// The code of the action of a phase with this name. A line of an action begins with the name.
#[tactic(auto, unfolding(crate::specs::LineReading::code_named))]
pub fn code_named(phase: Phase, name: &[u8]) -> Option<Code>
    ensures { result ≡ code_named phase name.now }
{
    CODES
        .iter()
        .copied()
        .find(|code| code.is_of(phase) && code.name() == name)
}

// The action of a code, by the text after its name.
fn operands(alloc: Global, code: Code, text: &[u8]) -> Result<Action, Unread>
    ensures { Gives (λ x. x) result (operands_at code text.now) }
{
    match read_operands(alloc, code, Line { code, text }) {
        Ok((action, rest)) => ended(action, rest.text),
        Err(unread) => Err(unread),
    }
}

/// The action of a phase whose line this is.
#[tactic(auto, unfolding(crate::specs::LineReading::action_of))]
pub(crate) fn action_of(alloc: Global, phase: Phase, line: &[u8]) -> Result<Action, Unread>
    ensures { Gives (λ x. x) result (action_of phase line.now) }
{
    let (name, text) = line.split_at(space_place(line));
    match code_named(phase, name) {
        Some(code) => operands(alloc, code, text),
        None => Err(Unread::Malformed),
    }
}
