//! Why a module starts.

/// Why a module starts, as its start line prints it.
#[derive(Clone, Copy, PartialEq, Eq)]
pub enum Licence {
    /// Its volume's a priori file lists it (PI 1.8, volumes 1 and 2).
    Apriori,
    /// It has no dependency expression; a driver then waits for all architectural protocols.
    Absent,
    /// Its dependency expression holds.
    True,
    /// It registered for shadow, and memory was moved (PI 1.8, volume 1, `RegisterForShadow`).
    Shadow,
    /// It is before the driver that its BEFORE names (PI 1.8, volume 2).
    Before,
    /// It starts after the driver that its AFTER names.
    After,
}
