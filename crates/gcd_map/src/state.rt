// What an address of the memory space is, and what becomes of it.
ghost use Rattle.std.specs.Prelude.{◌≡◌};
ghost use Rattle.gcd_map.specs.AddressSpace.{after_effect};

/// What is at an address. PI 1.8, volume 2, `EFI_GCD_MEMORY_TYPE`.
#[derive(Clone, Copy, PartialEq, Eq)]
pub enum GcdKind {
    /// Nothing.
    NonExistent,
    /// Memory that is not to be used.
    Reserved,
    /// Memory for the system's use.
    System,
    /// Registers of devices.
    Mmio,
}

/// The kind of an address, and whether it is allocated.
#[derive(Clone, Copy, PartialEq, Eq)]
pub struct SpaceState {
    pub kind: GcdKind,
    pub allocated: bool,
}

/// What a change does to each of its addresses.
#[derive(Clone, Copy)]
pub(crate) enum Effect {
    /// It has this state from then on.
    Becomes(SpaceState),
    /// It is free, and its kind stays.
    Freed,
}

impl Effect {
    // The state after it.
    pub(crate) fn on(self, old: SpaceState) -> SpaceState
        ensures { result ≡ after_effect self old }
    {
        match self {
            Effect::Becomes(state) => state,
            Effect::Freed => SpaceState {
                kind: old.kind,
                allocated: false,
            },
        }
    }
}
