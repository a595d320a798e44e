//! How many actions a phase may take.

/// How many actions were taken, and how many may be taken in all.
#[derive(Clone, Copy)]
pub struct Fuel {
    pub taken: u32,
    pub limit: u32,
}

impl Fuel {
    ghost use Rattle.phase_parts.specs.Spent.{Spends};

    /// Counts one more action, and returns true. If the most are taken already, it returns false and counts nothing.
    pub fn spend(&mut self) -> bool
        ensures { Spends self.old result self.new }
    {
        if self.taken >= self.limit {
            return false;
        }
        self.taken += 1;
        true
    }
}
