// Ranges of addresses of one state.
ghost use Rattle.std.specs.Prelude.{◌≡◌};
ghost use Rattle.gcd_map.specs.Ranges.{state_of};

use crate::state::{GcdKind, SpaceState};

/// The `len` addresses from `base` on, which have one kind and are all allocated or all free. PI 1.8, volume 2, `EFI_GCD_MEMORY_SPACE_DESCRIPTOR`.
#[derive(Clone, Copy)]
pub struct GcdRange {
    /// The first address.
    pub base: u64,
    /// How many addresses there are.
    pub len: u64,
    /// What they are.
    pub kind: GcdKind,
    /// Whether they are allocated.
    pub allocated: bool,
}

impl GcdRange {
    // The state of its addresses.
    pub(crate) fn state(self) -> SpaceState
        ensures { result ≡ state_of self }
    {
        SpaceState {
            kind: self.kind,
            allocated: self.allocated,
        }
    }
}
