// What is wrong with a plan, and in which line.
ghost use Rattle.std.specs.Prelude.{◌≡◌};
ghost use Rattle.boot_plan.specs.declared.fault.PlanCause.TheVariants.{Memory};

use pi_base::OutOfMemory;

/// What is wrong with a plan. The project chose the numbers.
#[derive(Clone, Copy, Debug, PartialEq, Eq)]
pub enum PlanCause {
    /// The line has no form: its first word, the number of its words, a byte of it or its name is not of the format.
    Word = 40,
    /// A number is not spelled as one, or is 2^64 or more.
    Number = 41,
    /// The text ends without `temp`, `ram` or a volume.
    Missing = 42,
    /// A second `temp`, `ram`, `fuel` or `pages`.
    Twice = 43,
    /// Temporary RAM and RAM are not disjoint.
    Overlap = 44,
    /// A value is out of its limits, or a volume is the 17th.
    Limit = 45,
    /// The page region leaves too little of temporary RAM.
    Room = 46,
    /// Memory ran out.
    Memory = 47,
}

/// The first fault of a plan.
#[derive(Clone, Copy, Debug, PartialEq, Eq)]
pub struct PlanFault {
    /// The line that has it, from 1; 0 if memory runs out.
    pub line: u32,
    /// What is wrong there.
    pub cause: PlanCause,
}

impl From<OutOfMemory> for PlanFault {
    ghost from_gives = { λ _ fault. fault.cause ≡ Memory };

    fn from(_want: OutOfMemory) -> PlanFault {
        PlanFault {
            line: 0,
            cause: PlanCause::Memory,
        }
    }
}
