// Why an expression could not be read.
ghost use Rattle.std.specs.Prelude.{◌≡◌};
ghost use Rattle.depex_code.specs.declared.fault.DepexFault.TheVariants.{Memory};

use pi_base::OutOfMemory;

/// Why an expression could not be read.
#[derive(Clone, Copy, Debug, PartialEq, Eq)]
pub enum DepexFault {
    /// The bytes begin with no expression. It has the offset of the first opcode that fails, counted from the first byte that was handed in.
    Malformed(u32),
    /// Memory ran out.
    Memory,
}

impl From<OutOfMemory> for DepexFault {
    ghost from_gives = { λ _ fault. fault ≡ Memory };

    fn from(_want: OutOfMemory) -> DepexFault {
        DepexFault::Memory
    }
}
