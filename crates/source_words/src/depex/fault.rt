// Why words are no expression.
ghost use Rattle.std.specs.Prelude.{◌≡◌};
ghost use Rattle.source_words.specs.declared.depex.fault.ExpressionFault.TheVariants.{Memory};

use pi_base::OutOfMemory;
use std::fmt::{self, Display, Formatter};
use thiserror::Error;

/// Why words are no expression: what is wrong with the first of them with which no expression goes on, or with their end.
#[derive(Clone, Copy, Debug, PartialEq, Eq, Error)]
pub enum ExpressionFault {
    /// An operand is missing: an operator, a closing bracket or the end stands where one is due.
    NoOperand,
    /// A word stands where an operand is due, and is neither a GUID nor a name of one.
    NoGuid,
    /// A word stands behind an operand or behind END, and none may.
    Extra,
    /// A bracket is closed that was not opened, or is not closed.
    Bracket,
    /// SOR, BEFORE or AFTER in PEI.
    OtherPhase,
    /// An expression of more than `depex_code::MOST_OPCODES` opcodes.
    TooLong,
    /// Want of memory.
    Memory,
}

impl Display for ExpressionFault {
    fn fmt<W: fmt::Write>(&self, f: &mut Formatter<W>) -> fmt::Result {
        write!(f, "{self:?}")
    }
}

impl From<OutOfMemory> for ExpressionFault {
    ghost from_gives = { λ _ fault. fault ≡ Memory };

    fn from(_want: OutOfMemory) -> ExpressionFault {
        ExpressionFault::Memory
    }
}
