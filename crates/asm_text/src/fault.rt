// Why a text was not read.
ghost use Rattle.std.specs.Prelude.{◌≡◌};
ghost use Rattle.asm_text.specs.declared.fault.TextFault.TheVariants.{Memory};

use pi_base::OutOfMemory;
use thiserror::Error;

/// Why a text could not be read.
#[derive(Clone, Copy, Debug, PartialEq, Eq, Error)]
pub enum TextFault {
    /// The first line, from 1, up to which the lines begin no text. A text that ends too early has the line after its last line feed.
    #[error("Bad")]
    Bad { line: u32 },
    /// The text is that of a value whose bytes pass their limit.
    #[error("TooLong")]
    TooLong,
    /// Memory ran out.
    #[error("Memory")]
    Memory,
}

impl From<OutOfMemory> for TextFault {
    ghost from_gives = { λ _ fault. fault ≡ Memory };

    fn from(_want: OutOfMemory) -> TextFault {
        TextFault::Memory
    }
}
