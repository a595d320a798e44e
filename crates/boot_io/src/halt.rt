//! Why a boot that runs is given up.
ghost use Rattle.std.specs.Prelude.{◌≡◌};
ghost use Rattle.boot_io.specs.declared.halt.Halt.TheVariants.{Sink, Memory};

use crate::sink::SinkFault;
use pi_base::OutOfMemory;

/// Why a running boot is abandoned. What it printed is then the beginning of its text.
#[derive(Clone, Copy, Debug)]
pub enum Halt {
    /// A line could not be written. The sink has counted the failure.
    Sink,
    /// Memory ran out.
    Memory,
}

impl From<SinkFault> for Halt {
    ghost from_gives = { λ _ halt. halt ≡ Sink };

    fn from(_fault: SinkFault) -> Halt {
        Halt::Sink
    }
}

impl From<OutOfMemory> for Halt {
    ghost from_gives = { λ _ halt. halt ≡ Memory };

    fn from(_want: OutOfMemory) -> Halt {
        Halt::Memory
    }
}
