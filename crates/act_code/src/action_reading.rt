// Reading an action of a phase.
ghost use Rattle.act_code.specs.Reading.{Gives, action_at};

use crate::action::Action;
use crate::code::Code;
use crate::operand::{Unread, byte};
use crate::operands::read_operands;
use pi_base::Phase;
use std::alloc::Global;

/// The action of a phase at the front of the bytes, and the bytes after it.
#[tactic(auto, using(crate::proofs::Sources::operands_given), unfolding(crate::specs::Reading::action_at))]
pub fn action(alloc: Global, phase: Phase, bytes: &[u8]) -> Result<(Action, &[u8]), Unread>
    ensures { Gives (λ x. (x.0, x.1.now)) result (action_at phase bytes.now) }
{
    let (first, rest) = byte(bytes)?;
    match Code::from_byte(first) {
        Some(code) => {
            if code.is_of(phase) {
                read_operands(alloc, code, rest)
            } else {
                Err(Unread::Malformed)
            }
        }
        None => Err(Unread::Malformed),
    }
}
