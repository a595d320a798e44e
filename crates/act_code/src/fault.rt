// Why a script could not be read or written.
ghost use Rattle.std.specs.Prelude.{◌≡◌};
ghost use Rattle.act_code.specs.declared.fault.ActCause.TheVariants as cause;
ghost use Rattle.act_code.specs.declared.fault.WriteFault.TheVariants as write_fault;

use pi_base::OutOfMemory;

/// The first fault of a script, in reading order.
#[derive(Clone, Copy, Debug, PartialEq, Eq)]
pub struct ActFault {
    /// The offset in the script. 0 because memory ran out.
    pub at: u32,
    /// What is wrong there.
    pub cause: ActCause,
}

/// What is wrong with a script, and the place that has it (own).
#[derive(Clone, Copy, Debug, PartialEq, Eq)]
pub enum ActCause {
    /// At 0: fewer than 8 bytes are there, or the first four are not `PIAS`.
    Magic = 30,
    /// At 4: the version is not 1.
    Version = 31,
    /// At 5: the phase is neither 1 (PEI) nor 2 (DXE).
    Phase = 32,
    /// At 6: the number of blocks is not 1 to 64, or the script is longer than 65,536 bytes; at 7: that byte is not 0; at the first byte left over after the last block.
    Count = 33,
    /// At a block: its number of actions is cut short or not 1 to 1,024, or its last action is no `ret`.
    Block = 34,
    /// At an action: its code is not of the phase, its bytes are cut short, or an operand is out of its range.
    Action = 35,
    /// At an action: it skips past the last action of its block.
    Jump = 36,
    /// At an action: a register is above 15, or a block's number is not below the number of blocks.
    Index = 37,
    /// Memory ran out.
    Memory = 38,
}

/// Why a text could not be written.
#[derive(Clone, Copy, Debug, PartialEq, Eq)]
pub enum WriteFault {
    /// The text passes its limit.
    TooLong,
    /// Memory ran out.
    Memory,
}

impl From<OutOfMemory> for WriteFault {
    ghost from_gives = { λ _ fault. fault ≡ write_fault.Memory };

    fn from(_want: OutOfMemory) -> WriteFault {
        WriteFault::Memory
    }
}
