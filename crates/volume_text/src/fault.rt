// Why a text describes no volume.
ghost use Rattle.std.specs.Prelude.{◌≡◌};
ghost use Rattle.volume_text.specs.declared.fault.Stop.TheVariants as stop;
ghost use Rattle.volume_text.specs.declared.fault.TextFault.TheVariants as text_fault;

use pi_base::OutOfMemory;
use source_words::depex::ExpressionFault;
use source_words::script::{LineFault, ScriptCause};
use std::fmt::{self, Display, Formatter};
use thiserror::Error;

/// What is wrong with a line, or with the end of a text.
#[derive(Clone, Copy, Debug, PartialEq, Eq, Error)]
pub enum Cause {
    /// No line is of this kind outside of a script.
    UnknownLine,
    /// A word is missing.
    Missing,
    /// A word too many.
    Extra,
    /// A word is none of those that may stand there.
    Word,
    /// A word is no number below 2^64.
    Number,
    /// The length of a volume is below that of its header or above 64 MiB, or its header's is odd, below 64 bytes or no number of 16 bits; or its name
    /// stands in its header, at no number of 16 bits, or has less than its own 20 bytes; or the body of a pad file is longer than FFS2 can tell,
    /// or attributes are no number of 32 bits, or no file is aligned to such a number.
    Range,
    /// A word is neither a GUID nor a name of one.
    Guid,
    /// Words are no bytes in hexadecimal.
    Bytes,
    /// A word is neither a name of a file's type nor two hexadecimal digits.
    FileType,
    /// A word is not two hexadecimal digits.
    SectionType,
    /// What is wrong with the line of an action.
    Action(LineFault),
    /// What is wrong with the words of an expression.
    Expression(ExpressionFault),
    /// What is wrong with the blocks of a script.
    Script(ScriptCause),
    /// At its `end`: a script of more than 65,536 bytes.
    ScriptTooLong,
    /// The text does not begin with a volume.
    NoVolume,
    /// What stands in a file stands before the first file of its volume.
    NoFile,
    /// A block outside of a script.
    NoScript,
    /// A line that is neither an action nor `block` in a script that has no `end` yet.
    InScript,
    /// A file of this type has no expressions and scripts of the phase.
    NoPart,
    /// The file has an expression for the phase already.
    TwoDepex,
    /// The file has a script of the phase already.
    TwoScripts,
    /// The file has a body or sections already, and cannot have both, nor two bodies.
    TwoBodies,
    /// The volume has a name already.
    TwoNames,
    /// A volume is nested deeper than a reader of an image looks: it has depth 5, where the outermost has depth 1.
    Nesting,
    /// A line behind the end of the volume.
    BehindEnd,
    /// At the line behind the last: a volume or a script has no `end`.
    NoEnd,
    /// At its `end`: a volume has more files than a reader takes.
    TooMany,
    /// At its `end`: a section or a file of the volume is longer than its size fields can tell.
    Size,
    /// At its `end`: the files of a volume need so many bytes, its header among them, and it has fewer.
    NoRoom { need: u64 },
}

impl Display for Cause {
    fn fmt<W: fmt::Write>(&self, f: &mut Formatter<W>) -> fmt::Result {
        match self {
            Cause::Action(fault) => Display::fmt(fault, f),
            Cause::Expression(fault) => Display::fmt(fault, f),
            Cause::Script(cause) => Display::fmt(cause, f),
            Cause::NoRoom { need } => write!(f, "NoRoom {need}"),
            // Any other is its name.
            named => write!(f, "{named:?}"),
        }
    }
}

/// A line at fault, from 1, and what is wrong with it.
#[derive(Clone, Copy, Debug, PartialEq, Eq)]
pub struct Fault {
    /// The line. One more than there are, where the text ends too early.
    pub line: u64,
    /// What is wrong.
    pub cause: Cause,
}

/// Why a text describes no volume.
#[derive(Clone, Copy, Debug, PartialEq, Eq)]
pub enum TextFault {
    /// The line at fault.
    Bad(Fault),
    /// Want of memory.
    Memory,
}

impl From<OutOfMemory> for TextFault {
    ghost from_gives = { λ _ fault. fault ≡ text_fault.Memory };

    fn from(_want: OutOfMemory) -> TextFault {
        TextFault::Memory
    }
}

/// Why reading stopped.
#[derive(Clone, Copy)]
pub(crate) enum Stop {
    /// What is wrong.
    Fault(Cause),
    /// Want of memory.
    Memory,
}

impl From<OutOfMemory> for Stop {
    ghost from_gives = { λ _ e. e ≡ stop.Memory };

    fn from(_want: OutOfMemory) -> Stop {
        Stop::Memory
    }
}
