// Why a line is no action.
ghost use Rattle.std.specs.Prelude.{◌≡◌};
ghost use Rattle.source_words.specs.declared.script.fault.Stop.TheVariants as stop;

use pi_base::OutOfMemory;
use std::fmt::{self, Display, Formatter};
use thiserror::Error;

/// Why a line is no action of its phase: what is wrong with the first of its words with which none goes on, or with its end.
#[derive(Clone, Copy, Debug, PartialEq, Eq, Error)]
pub enum LineFault {
    /// An operand is missing.
    Missing,
    /// A word stands behind the last operand.
    Extra,
    /// No phase has an action of this name.
    UnknownAction,
    /// The other phase has an action of this name, and the script's has none.
    OtherPhase,
    /// A word is no register, `r0` to `r15`.
    Register,
    /// A word is no number below 2^64.
    Number,
    /// A number is out of the range of its operand, or there are more bytes than an operand may have.
    Range,
    /// A word is neither a GUID nor a name of one.
    Guid,
    /// A word is no status.
    Status,
    /// A word is none of those that may stand there.
    Word,
    /// Words are no bytes in hexadecimal.
    Bytes,
    /// A text to be logged is empty or longer than 64 bytes, or has a byte that is not printable.
    Log,
    /// A script may make no HOB of this type with a body of this length.
    Hob,
}

impl Display for LineFault {
    fn fmt<W: fmt::Write>(&self, f: &mut Formatter<W>) -> fmt::Result {
        write!(f, "{self:?}")
    }
}

/// Why reading stopped.
#[derive(Clone, Copy)]
pub enum Stop {
    /// What is wrong with the line.
    Fault(LineFault),
    /// Want of memory.
    Memory,
}

impl From<OutOfMemory> for Stop {
    ghost from_gives = { λ _ e. e ≡ stop.Memory };

    fn from(_want: OutOfMemory) -> Stop {
        Stop::Memory
    }
}
