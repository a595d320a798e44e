//! Why a volume could not be read.
ghost use Rattle.std.specs.Prelude.{◌≡◌};
ghost use Rattle.fv_volume.specs.declared.fault.VolCause.TheVariants.{Memory};

use pi_base::OutOfMemory;

/// What is wrong with a volume. The project chose the numbers.
#[derive(Clone, Copy, Debug, PartialEq, Eq)]
pub enum VolCause {
    /// Fewer bytes than the least header has.
    Short = 1,
    /// The signature is not `_FVH`.
    Signature = 2,
    /// The revision is not 2.
    Revision = 3,
    /// The file system is neither FFS2 nor FFS3.
    FileSystem = 4,
    /// FvLength is more than the bytes given.
    Length = 5,
    /// HeaderLength is odd, below the least header, or above FvLength.
    HeaderLength = 6,
    /// The header's 16-bit words do not sum to 0.
    HeaderSum = 7,
    /// The extended header is out of its place.
    ExtHeader = 8,
    /// A file header's bytes do not sum to 0.
    FileSum = 9,
    /// A file's header or size passes FvLength, or its size is not its form's.
    FileSize = 10,
    /// A file's body does not agree with its checksum.
    DataSum = 11,
    /// One listed file more than `MOST_FILES`.
    TooManyFiles = 12,
    /// Memory ran out.
    Memory = 13,
}

/// What is wrong, and where. `at` is an offset from the volume's start: that of the field or of the file's header, or 0 if memory ran out.
#[derive(Clone, Copy, Debug, PartialEq, Eq)]
pub struct VolFault {
    pub at: u64,
    pub cause: VolCause,
}

impl From<OutOfMemory> for VolFault {
    ghost from_gives = { λ _ fault. fault.cause ≡ Memory };

    fn from(_wanting: OutOfMemory) -> VolFault {
        VolFault {
            at: 0,
            cause: VolCause::Memory,
        }
    }
}
