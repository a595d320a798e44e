// What is wrong with a trace.
ghost use Rattle.std.specs.Prelude.{◌≡◌};
ghost use Rattle.trace_reader.specs.declared.fault.TraceFault.TheVariants.{Memory};

use pi_base::OutOfMemory;

/// What is wrong with the text of a trace.
#[derive(Clone, Copy, Debug, PartialEq, Eq)]
pub enum TraceFault {
    /// A line, counted from 1, is the text of no readable line: the first such line.
    Bad { line: u32 },
    /// Memory ran out.
    Memory,
}

impl From<OutOfMemory> for TraceFault {
    ghost from_gives = { λ _ fault. fault ≡ Memory };

    fn from(_want: OutOfMemory) -> TraceFault {
        TraceFault::Memory
    }
}
