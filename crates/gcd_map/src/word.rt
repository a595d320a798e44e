// The refusals of the memory space's services.
ghost use Rattle.std.specs.Prelude.{◌≡◌};
ghost use Rattle.gcd_map.specs.declared.word.GcdWord.TheVariants.{Memory};

use pi_base::OutOfMemory;
use std::fmt::{self, Display, Formatter};
use thiserror::Error;

/// Why a command on the memory space is refused. PI 1.8, volume 2, "Global Coherency Domain Services".
#[derive(Clone, Copy, Debug, PartialEq, Eq, Error)]
pub enum GcdWord {
    /// No addresses, `nonexistent` as the kind, or an alignment above `MOST_ALIGN`.
    InvalidParameter,
    /// The addresses end after the memory space.
    Unsupported,
    /// Some address is in use.
    AccessDenied,
    /// Some address, or each base, is not as the call needs it.
    NotFound,
    /// Memory ran out for the map itself.
    Memory,
}

impl Display for GcdWord {
    fn fmt<W: fmt::Write>(&self, f: &mut Formatter<W>) -> fmt::Result {
        write!(f, "{self:?}")
    }
}

impl From<OutOfMemory> for GcdWord {
    ghost from_gives = { λ _ word. word ≡ Memory };

    fn from(_want: OutOfMemory) -> GcdWord {
        GcdWord::Memory
    }
}
