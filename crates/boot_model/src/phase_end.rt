//! How the phases of a boot end.

/// How PEI ends.
#[derive(Clone, Copy)]
pub enum PeiEnd {
    /// Memory has moved and the DXE IPL is installed: PEI hands off to it.
    Handoff,
    /// Memory has not moved.
    NoMemory,
    /// Memory has moved, and the DXE IPL is not installed.
    NoIpl,
    /// The fuel is used up, and one more action was to run.
    Spent,
    /// The most frames are running, and a notification was to begin.
    Deep,
}

/// How DXE ends.
#[derive(Clone, Copy)]
pub enum DxeEnd {
    /// No driver is scheduled, and none that waits may start.
    Done,
    /// The fuel is used up, and one more action was to run.
    Spent,
    /// The most frames are running, and a notification was to begin.
    Deep,
}
