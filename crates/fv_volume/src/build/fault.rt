//! Why a volume could not be built.
ghost use Rattle.std.specs.Prelude.{◌≡◌};
ghost use Rattle.fv_volume.specs.declared.build.fault.BuildFault.TheVariants.{Memory};

use pi_base::OutOfMemory;
use thiserror::Error;

/// Why a volume cannot be built of these files.
#[derive(Clone, Copy, Debug, PartialEq, Eq, Error)]
pub enum BuildFault {
    /// More files than `crate::MOST_FILES`.
    #[error("TooMany")]
    TooMany,
    /// A section or a file is too long for its size fields.
    #[error("Size")]
    Size,
    /// The volume is too short for the files. `need` counts from the volume's start to the last file's end, `have` is the volume's length. A need of 2^64 bytes
    /// or more is given as 2^64 - 1.
    #[error("NoRoom")]
    NoRoom { need: u64, have: u64 },
    /// Memory ran out.
    #[error("Memory")]
    Memory,
}

impl From<OutOfMemory> for BuildFault {
    ghost from_gives = { λ _ fault. fault ≡ Memory };

    fn from(_wanting: OutOfMemory) -> BuildFault {
        BuildFault::Memory
    }
}
