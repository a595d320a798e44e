// Why a HOB list has no memory space map.
ghost use Rattle.std.specs.Prelude.{◌≡◌};
ghost use Rattle.gcd_map.specs.declared.fault.GcdCause.TheVariants.{Memory};

use pi_base::OutOfMemory;
use std::fmt::{self, Display, Formatter};
use thiserror::Error;

/// What is wrong with a HOB list from which the memory space is made. The project chose the numbers.
#[derive(Clone, Copy, Debug, PartialEq, Eq, Error)]
pub enum GcdCause {
    /// Fewer than 8 bytes are left for a HOB's header.
    Short = 1,
    /// HobLength is below 8, no multiple of 8, or more than is left.
    Length = 2,
    /// A known type has a wrong length, a hand-off has another Version than 9, or the list begins with no hand-off.
    Form = 3,
    /// The list has no end HOB.
    NoEnd = 4,
    /// Memory ran out.
    Memory = 5,
    /// There is no CPU HOB.
    NoCpu = 70,
    /// SizeOfMemorySpace of the first CPU HOB is not 12 to 52.
    Bits = 71,
    /// A resource has no address, or ends after the memory space.
    Range = 72,
    /// A resource meets an earlier one.
    Overlap = 73,
    /// An allocation has no address, or one that is not free system memory.
    Outside = 74,
}

impl Display for GcdCause {
    fn fmt<W: fmt::Write>(&self, f: &mut Formatter<W>) -> fmt::Result {
        write!(f, "{self:?}")
    }
}

/// What is wrong, and the offset of the HOB: the bytes' length for NoEnd, 0 for NoCpu and Memory.
#[derive(Clone, Copy, Debug, PartialEq, Eq)]
pub struct GcdFault {
    pub cause: GcdCause,
    pub at: u32,
}

impl From<OutOfMemory> for GcdFault {
    ghost from_gives = { λ _ fault. fault.cause ≡ Memory };

    fn from(_want: OutOfMemory) -> GcdFault {
        GcdFault {
            cause: GcdCause::Memory,
            at: 0,
        }
    }
}
