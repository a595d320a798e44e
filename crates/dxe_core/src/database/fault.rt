// Why a handle service is refused.
ghost use Rattle.std.specs.Prelude.{◌≡◌};
ghost use Rattle.dxe_core.specs.declared.database.fault.HandleFault.TheVariants.{Memory};

use pi_base::OutOfMemory;

/// Why a service did not succeed.
#[derive(Clone, Copy, Debug, PartialEq, Eq)]
pub enum HandleFault {
    /// The handle is not live, or has an interface of the protocol already.
    InvalidParameter,
    /// The handle has no interface of the protocol with that value.
    NotFound,
    /// There is no memory. The handles are as they were.
    Memory,
}

impl From<OutOfMemory> for HandleFault {
    ghost from_gives = { λ _ fault. fault ≡ Memory };

    fn from(_: OutOfMemory) -> HandleFault {
        HandleFault::Memory
    }
}
