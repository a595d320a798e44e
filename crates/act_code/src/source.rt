// Where operands are read from.
ghost use Rattle.std.specs.Prelude.{Option};
ghost use Rattle.act_code.specs.Format.{Byte, Within, RegisterNumber, BlockNumber, Little, GuidBytes, WordNumber, Counted, Text, Registers, Descriptor, HobBody};
ghost use Rattle.act_code.specs.Source.{Way, Gives};

use crate::action::GuidArg;
use pi_base::{Guid, Seq, Word};
use std::alloc::Global;

/// A source of operands: bytes, a line or words. Each reader returns one value and what is left of the source.
pub trait Source: Sized {
    /// Why an operand is not read.
    type Fault;

    // What is left of a source.
    ghost Left: { Type 0 };

    ghost left: { Self → Left };

    // Why nothing was read. A failure without a cause means that memory ran out.
    ghost Cause: { Type 0 };

    ghost cause: { Self.Fault → Option Cause };

    // How an operand is read.
    ghost way: { Way Left Cause };

    /// A register.
    fn register(self) -> Result<(u8, Self), Self::Fault>
        ensures { Gives left cause result (way RegisterNumber (left self)) };

    /// A block.
    fn block(self) -> Result<(u8, Self), Self::Fault>
        ensures { Gives left cause result (way BlockNumber (left self)) };

    /// A byte.
    fn byte(self) -> Result<(u8, Self), Self::Fault>
        ensures { Gives left cause result (way Byte (left self)) };

    /// A byte from one number to another.
    fn within(self, low: u8, high: u8) -> Result<(u8, Self), Self::Fault>
        ensures { Gives left cause result (way (Within low high) (left self)) };

    /// A number of two bytes.
    fn number_2(self) -> Result<(u16, Self), Self::Fault>
        ensures { Gives left cause result (way (Little 2) (left self)) };

    /// A number of four bytes.
    fn number_4(self) -> Result<(u32, Self), Self::Fault>
        ensures { Gives left cause result (way (Little 4) (left self)) };

    /// A number of eight bytes.
    fn number_8(self) -> Result<(u64, Self), Self::Fault>
        ensures { Gives left cause result (way (Little 8) (left self)) };

    /// A GUID.
    fn guid(self) -> Result<(Guid, Self), Self::Fault>
        ensures { Gives left cause result (way GuidBytes (left self)) };

    /// A status.
    fn status(self) -> Result<(Word, Self), Self::Fault>
        ensures { Gives left cause result (way WordNumber (left self)) };

    /// 1 to 64 bytes.
    fn counted(self, alloc: Global) -> Result<(Seq<u8>, Self), Self::Fault>
        ensures { Gives left cause result (way Counted (left self)) };

    /// 1 to 64 printable bytes.
    fn text(self, alloc: Global) -> Result<(Seq<u8>, Self), Self::Fault>
        ensures { Gives left cause result (way Text (left self)) };

    /// 1 to 8 registers.
    fn registers(self, alloc: Global) -> Result<(Seq<u8>, Self), Self::Fault>
        ensures { Gives left cause result (way Registers (left self)) };

    /// What a descriptor is of, its GUID or the register of its address, and its last operand.
    fn descriptor(self) -> Result<((u8, GuidArg, u8), Self), Self::Fault>
        ensures { Gives left cause result (way Descriptor (left self)) };

    /// The type of a HOB and its body.
    fn hob(self, alloc: Global) -> Result<((u8, Seq<u8>), Self), Self::Fault>
        ensures { Gives left cause result (way HobBody (left self)) };
}
