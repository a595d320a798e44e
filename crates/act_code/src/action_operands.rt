// The operands of an action, as they are written.
ghost use Rattle.std.specs.Prelude.{◌≡◌, filter_map};
ghost use Rattle.act_code.specs.Operands.{part_of, action_parts};

use crate::action::{Action, GuidArg};
use pi_base::{Guid, Seq, Word};

/// One operand of an action.
#[derive(Clone, Copy)]
pub enum Operand<'a> {
    /// No operand.
    Nothing,
    /// The number of a register.
    Register(u8),
    /// The number of a block.
    Block(u8),
    /// A byte.
    Byte(u8),
    /// A byte within bounds.
    Choice(u8),
    /// A number of two bytes.
    Number2(u16),
    /// A number of four bytes.
    Number4(u32),
    /// A number of eight bytes.
    Number8(u64),
    /// A GUID.
    Guid(&'a Guid),
    /// A status.
    Status(Word),
    /// Bytes.
    Counted(&'a Seq<u8>),
    /// A text.
    Text(&'a Seq<u8>),
    /// Numbers of registers.
    Registers(&'a Seq<u8>),
    /// What a descriptor is of, its GUID or the register of its address, and its last operand.
    Descriptor(u8, &'a GuidArg, u8),
    /// The type of a HOB, and its body.
    Hob(u8, &'a Seq<u8>),
}

impl Action {
    /// The operands in order, with `Nothing` after them.
    pub fn operands<'a>(&'a self) -> [Operand<'a>; 4]
        ensures { filter_map part_of result ≡ action_parts self.now }
    {
        use Operand::{
            Block, Byte, Choice, Counted, Descriptor, Guid, Hob, Nothing, Number2, Number4,
            Number8, Register, Registers, Status, Text,
        };
        match self {
            Action::Set { r, n } => [Register(*r), Number8(*n), Nothing, Nothing],
            Action::Add { r, n } => [Register(*r), Number8(*n), Nothing, Nothing],
            Action::Pool { r, size } => [Register(*r), Number4(*size), Nothing, Nothing],
            Action::Store { p, offset, bytes } => [
                Register(*p),
                Number4(*offset),
                Counted(bytes),
                Nothing,
            ],
            Action::Addr { v, x, offset } => [
                Register(*v),
                Register(*x),
                Number4(*offset),
                Nothing,
            ],
            Action::Peek { v, n } => [Register(*v), Choice(*n), Nothing, Nothing],
            Action::Desc { d, kind, guid, arg } => [
                Register(*d),
                Descriptor(*kind, guid, *arg),
                Nothing,
                Nothing,
            ],
            Action::Install { list } => [Registers(list), Nothing, Nothing, Nothing],
            Action::Reinstall { old, new } => [Register(*old), Register(*new), Nothing, Nothing],
            Action::Notify { list } => [Registers(list), Nothing, Nothing, Nothing],
            Action::Locate {
                d,
                v,
                guid,
                instance,
            } => [Register(*d), Register(*v), Guid(guid), Number2(*instance)],
            Action::Hob { kind, body } => [Hob(*kind, body), Nothing, Nothing, Nothing],
            Action::Memory { begin, length } => [
                Register(*begin),
                Register(*length),
                Nothing,
                Nothing,
            ],
            Action::Pages {
                r,
                memory_type,
                count,
            } => [Register(*r), Byte(*memory_type), Number4(*count), Nothing],
            Action::BootMode { form, r } => [Choice(*form), Register(*r), Nothing, Nothing],
            Action::Log { text } => [Text(text), Nothing, Nothing, Nothing],
            Action::SkipIf { condition, n } => [Choice(*condition), Choice(*n), Nothing, Nothing],
            Action::Ret { status } => [Status(*status), Nothing, Nothing, Nothing],
            Action::Shadow => [Nothing, Nothing, Nothing, Nothing],
            Action::DxeInstall { form, h, guid, v } => [
                Choice(*form),
                Register(*h),
                Guid(guid),
                Register(*v),
            ],
            Action::DxeReinstall { h, guid, old, new } => [
                Register(*h),
                Guid(guid),
                Register(*old),
                Register(*new),
            ],
            Action::DxeUninstall { h, guid, v } => [
                Register(*h),
                Guid(guid),
                Register(*v),
                Nothing,
            ],
            Action::DxeLocate { h, v, guid } => [Register(*h), Register(*v), Guid(guid), Nothing],
            Action::DxeNotify { guid, block } => [Guid(guid), Block(*block), Nothing, Nothing],
            Action::Schedule { guid } => [Guid(guid), Nothing, Nothing, Nothing],
            Action::Process { v } => [Register(*v), Nothing, Nothing, Nothing],
            Action::Dispatch => [Nothing, Nothing, Nothing, Nothing],
        }
    }
}
