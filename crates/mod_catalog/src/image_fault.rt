// Why a set of images has no catalogue.
ghost use Rattle.std.specs.Prelude.{◌≡◌};
ghost use Rattle.mod_catalog.specs.declared.image_fault.ImageCause.TheVariants.{Memory};

use pi_base::OutOfMemory;

/// What is wrong with an image: the causes of volumes, sections and scripts, and those of an image as a whole.
#[derive(Clone, Copy, Debug, PartialEq, Eq)]
pub enum ImageCause {
    Short = 1,
    Signature = 2,
    Revision = 3,
    FileSystem = 4,
    Length = 5,
    HeaderLength = 6,
    HeaderSum = 7,
    ExtHeader = 8,
    FileSum = 9,
    FileSize = 10,
    DataSum = 11,
    TooManyFiles = 12,
    Size = 20,
    Compressed = 21,
    GuidDefined = 22,
    TooMany = 23,
    Magic = 30,
    Version = 31,
    Phase = 32,
    Count = 33,
    Block = 34,
    Action = 35,
    Jump = 36,
    Index = 37,
    /// A volume is nested deeper than `MOST_DEPTH`.
    Nesting = 50,
    /// One module more than `MOST_MODULES`.
    TooManyModules = 51,
    /// A plan volume overlaps RAM or an earlier plan volume, or ends above `MOST_END`.
    Place = 52,
    /// One volume more than `MOST_VOLUMES`.
    TooManyVolumes = 53,
    /// All scripts together pass `MOST_SCRIPT_BYTES`.
    ScriptTotal = 54,
    /// Memory ran out.
    Memory = 61,
}

/// What is wrong in the file of one volume of the plan.
#[derive(Clone, Copy, Debug)]
pub struct FaultAt {
    /// An offset in the file.
    pub at: u64,
    pub cause: ImageCause,
}

impl From<OutOfMemory> for FaultAt {
    ghost from_gives = { λ _ fault. fault.cause ≡ Memory };

    fn from(_: OutOfMemory) -> FaultAt {
        FaultAt {
            at: 0,
            cause: ImageCause::Memory,
        }
    }
}

/// What is wrong, and where: the number of the plan's volume, from 0, and an offset in its file.
#[derive(Clone, Copy, Debug, PartialEq, Eq)]
pub struct ImageFault {
    pub volume: u32,
    pub at: u64,
    pub cause: ImageCause,
}

impl From<OutOfMemory> for ImageFault {
    ghost from_gives = { λ _ fault. fault.cause ≡ Memory };

    fn from(_: OutOfMemory) -> ImageFault {
        ImageFault {
            volume: 0,
            at: 0,
            cause: ImageCause::Memory,
        }
    }
}
