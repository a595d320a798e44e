// The standing of a module's part.
ghost use Rattle.std.specs.Prelude.{◌≡◌};
ghost use Rattle.wait_index.specs.Standing.{is_ready, is_later};

use crate::verdict::Verdict;

/// The standing of a module's part: its place, and what decides whether it may start.
#[derive(Clone, Copy)]
pub(crate) struct Standing {
    /// Its place, if its volume is known.
    pub(crate) place: Option<u32>,
    /// It has not started.
    pub(crate) waits: bool,
    /// It may be asked; a driver with SOR is closed until it is requested.
    pub(crate) open: bool,
    /// It may start again.
    pub(crate) again: bool,
    /// What its expression said when it was evaluated last.
    pub(crate) verdict: Verdict,
}

impl Standing {
    /// Whether it may start.
    pub(crate) fn is_ready(&self) -> bool
        ensures { result ≡ is_ready self.now }
    {
        match self.verdict {
            Verdict::Yes => self.again || self.waits && self.open,
            _ => self.again,
        }
    }

    /// Whether it may start once all architectural protocols are installed.
    pub(crate) fn is_later(&self) -> bool
        ensures { result ≡ is_later self.now }
    {
        match self.verdict {
            Verdict::WithAll => self.waits && self.open,
            _ => false,
        }
    }
}
