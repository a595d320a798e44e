//! Why a boot is followed no further.
ghost use Rattle.std.specs.Prelude.{◌≡◌};
ghost use Rattle.recorded_boot.specs.declared.trace.parted.Parted.TheVariants.{Off, Memory};

use boot_io::{Halt, SinkFault};
use pi_base::OutOfMemory;

/// Why a boot was not followed to its end.
#[derive(Clone, Copy)]
pub enum Parted {
    /// The text is no boot's that continues as what was met.
    Off,
    /// Memory ran out.
    Memory,
}

impl From<SinkFault> for Parted {
    ghost from_gives = { λ _ parted. parted ≡ Off };

    fn from(_fault: SinkFault) -> Parted {
        Parted::Off
    }
}

impl From<OutOfMemory> for Parted {
    ghost from_gives = { λ _ parted. parted ≡ Memory };

    fn from(_want: OutOfMemory) -> Parted {
        Parted::Memory
    }
}

impl From<Halt> for Parted {
    ghost use Rattle.recorded_boot.specs.Parted.{parted_by};

    ghost from_gives = { λ halt parted. parted ≡ parted_by halt };

    fn from(halt: Halt) -> Parted {
        match halt {
            Halt::Sink => Parted::Off,
            Halt::Memory => Parted::Memory,
        }
    }
}
