// The lists among operands, and HOBs. A reader returns a value and what follows it.
ghost use Rattle.std.specs.Prelude.{◌≡◌};
ghost use Rattle.act_code.specs.{Format.is_within, Reading.Gives};
ghost use Rattle.asm_text.specs.OperandReading.{bytes_at, registers_within};

use crate::operand_reading::register;
use crate::word::{bytes_word, word};
use act_code::Unread;
use pi_base::Seq;
use std::alloc::Global;

/// The most bytes of a list.
pub(crate) const MOST_BYTES: usize = act_code::MOST_BYTES as usize;

/// The most registers of a list.
const MOST_REGISTERS: usize = act_code::MOST_REGISTERS as usize;

/// Bytes.
#[tactic(auto, unfolding(crate::specs::OperandReading::bytes_at))]
pub(crate) fn bytes(alloc: Global, text: &[u8]) -> Result<(Seq<u8>, &[u8]), Unread>
    ensures { Gives (λ x. (x.0, x.1.now)) result (bytes_at text.now) }
{
    let (word, rest) = word(text)?;
    let bytes = bytes_word(alloc, word)?;
    Ok((bytes, rest))
}

/// Whether there are 1 to so many.
pub(crate) fn are_few(len: usize, most: usize) -> bool
    ensures { result ≡ is_within 1 most len }
{
    1 <= len && len <= most
}

/// Registers to the end of the line, at most 8.
pub(crate) fn few_registers(alloc: Global, text: &[u8]) -> Result<Seq<u8>, Unread>
    ensures { Gives (λ x. x) result (registers_within 8 text.now) }
{
    let mut list = Seq::new(alloc);
    let mut rest = text;
    'registers: while !rest.is_empty() {
        if list.len() >= MOST_REGISTERS {
            return Err(Unread::Malformed);
        }
        match register(rest) {
            Ok((r, behind)) => {
                list.push(r)?;
                rest = behind;
            }
            Err(unread) => return Err(unread),
        }
    }
    Ok(list)
}
