// What the limits count.
use crate::holding::Holding;

/// How many volumes and modules there are, and how many bytes their scripts have together.
#[derive(Clone, Copy)]
pub struct Totals {
    pub volumes: usize,
    pub modules: usize,
    pub script_bytes: u64,
}

impl Totals {
    ghost use Rattle.std.specs.Prelude.{◌≡◌};
    ghost use Rattle.mod_catalog.specs.Totals.{AreWithin, no_totals, totals_with, with_volume};

    /// No volumes, modules or scripts.
    pub fn none() -> Totals
        ensures { result ≡ no_totals }
    {
        Totals {
            volumes: 0,
            modules: 0,
            script_bytes: 0,
        }
    }

    /// These totals with a part of the images added.
    pub fn with(self, holding: &Holding) -> Totals
        requires { AreWithin (totals_with self holding.now) }
        ensures { result ≡ totals_with self holding.now }
    {
        Totals {
            volumes: self.volumes + holding.volumes.len(),
            modules: self.modules + holding.modules.len(),
            script_bytes: self.script_bytes + holding.script_bytes,
        }
    }

    /// These totals with one volume added.
    pub fn with_volume(self) -> Totals
        requires { AreWithin (with_volume self) }
        ensures { result ≡ with_volume self }
    {
        Totals {
            volumes: self.volumes + 1,
            modules: self.modules,
            script_bytes: self.script_bytes,
        }
    }
}
