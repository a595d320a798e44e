// What a command needs of each address.
ghost use Rattle.std.specs.Prelude.{MatchBool};
ghost use Rattle.gcd_map.specs.Tests.{Meets, Misses};

use crate::state::{GcdKind, SpaceState};

/// What the state of an address must be.
#[derive(Clone, Copy)]
pub(crate) enum Need {
    /// Nothing is there.
    Absent,
    /// Something is there.
    Present,
    Allocated,
    Free,
    /// Of this kind, and free.
    FreeOf(GcdKind),
}

impl Need {
    // Whether a state is as needed.
    pub(crate) fn is_met(self, state: SpaceState) -> bool
        ensures { MatchBool result (Meets self state) (Misses self state) }
    {
        match self {
            Need::Absent => state.kind == GcdKind::NonExistent,
            Need::Present => state.kind != GcdKind::NonExistent,
            Need::Allocated => state.allocated,
            Need::Free => !state.allocated,
            Need::FreeOf(kind) => state.kind == kind && !state.allocated,
        }
    }
}
