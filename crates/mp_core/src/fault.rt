// Why a text is not an MP file.

use pi_base::OutOfMemory;
use thiserror::Error;

/// Why a text is not an MP file.
#[derive(Clone, Copy, Debug, PartialEq, Eq, Error)]
pub enum MpFault {
    /// The number, from 1, of the first line that is of no form or names what there is not; if there is no first line `mp N C`, the number of lines plus 1.
    #[error("Bad")]
    Bad { line: u32 },
    /// Memory ran out.
    #[error("Memory")]
    Memory,
}

impl From<OutOfMemory> for MpFault {
    ghost use Rattle.std.specs.Prelude.{◌≡◌};
    ghost use Rattle.mp_core.specs.declared.fault.MpFault.TheVariants.{Memory};

    ghost from_gives = { λ _ fault. fault ≡ Memory };

    fn from(_want: OutOfMemory) -> MpFault {
        MpFault::Memory
    }
}
