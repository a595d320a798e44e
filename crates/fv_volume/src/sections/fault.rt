//! Why sections could not be read.
ghost use Rattle.std.specs.Prelude.{◌≡◌};
ghost use Rattle.fv_volume.specs.declared.sections.fault.SecCause.TheVariants.{Memory};

use pi_base::OutOfMemory;

/// What is wrong with a stream of sections. The project chose the numbers.
#[derive(Clone, Copy, Debug, PartialEq, Eq)]
pub enum SecCause {
    /// The header or the section passes the stream's end, or the size is below the header's length.
    Size = 20,
    /// A compression section, which is not opened here.
    Compressed = 21,
    /// A GUID-defined section, which is not opened here.
    GuidDefined = 22,
    /// One section more than `MOST_SECTIONS`.
    TooMany = 23,
    /// Memory ran out.
    Memory = 24,
}

/// What is wrong, and where: `at` is an offset in the stream, or 0 if memory ran out.
#[derive(Clone, Copy, Debug, PartialEq, Eq)]
pub struct SecFault {
    pub at: u64,
    pub cause: SecCause,
}

impl From<OutOfMemory> for SecFault {
    ghost from_gives = { λ _ fault. fault.cause ≡ Memory };

    fn from(_wanting: OutOfMemory) -> SecFault {
        SecFault {
            at: 0,
            cause: SecCause::Memory,
        }
    }
}
