// What is wrong with HOB bytes.
ghost use Rattle.std.specs.Prelude.{◌≡◌};
ghost use Rattle.hob_codec.specs.declared.fault.HobFault.TheVariants.{Memory};

use pi_base::OutOfMemory;
use std::fmt::{self, Display, Formatter};
use thiserror::Error;

/// What is wrong with the bytes of a HOB or of a HOB list. The project chose the numbers.
#[derive(Clone, Copy, Debug, PartialEq, Eq, Error)]
pub enum HobFault {
    /// Fewer than 8 bytes are left for a header.
    Short = 1,
    /// HobLength is below 8, no multiple of 8, or more than is left.
    Length = 2,
    /// A known type has a wrong length, a hand-off has another Version than 9, or a list begins with no hand-off.
    Form = 3,
    /// A list has no end HOB.
    NoEnd = 4,
    /// Memory ran out.
    Memory = 5,
}

impl Display for HobFault {
    fn fmt<W: fmt::Write>(&self, f: &mut Formatter<W>) -> fmt::Result {
        write!(f, "{self:?}")
    }
}

impl From<OutOfMemory> for HobFault {
    ghost from_gives = { λ _ fault. fault ≡ Memory };

    fn from(_want: OutOfMemory) -> HobFault {
        HobFault::Memory
    }
}
