// The lists among operands, and HOBs. A reader gives a value and the words behind it.
ghost use Rattle.std.specs.Prelude.{◌≡◌};
ghost use Rattle.act_code.specs.Format.{is_within};
ghost use Rattle.source_words.specs.{Words.words, Reading.Gives, Operands.registers_within};

use crate::next_word;
use crate::script::fault::{LineFault, Stop};
use crate::script::word::register_of;
use pi_base::Seq;
use std::alloc::Global;

/// The most bytes of a list.
pub(crate) const MOST_BYTES: usize = 64;

/// The most registers of a list.
const MOST_REGISTERS: usize = 8;

/// Whether there are 1 to so many.
pub(crate) fn are_few(len: usize, most: usize) -> bool
    ensures { result ≡ is_within 1 most len }
{
    1 <= len && len <= most
}

/// Registers to the end of the line, at most 8.
pub(crate) fn few_registers(alloc: Global, text: &[u8]) -> Result<Seq<u8>, Stop>
    ensures { Gives (λ x. x) result (registers_within 8 (words text.now)) }
{
    let mut list = Seq::new(alloc);
    let mut rest = text;
    'registers: while let Some((word, behind)) = next_word(rest) {
        if list.len() >= MOST_REGISTERS {
            return Err(Stop::Fault(LineFault::Extra));
        }
        match register_of(word) {
            Some(r) => {
                list.push(r)?;
                rest = behind;
            }
            None => return Err(Stop::Fault(LineFault::Register)),
        }
    }
    Ok(list)
}
