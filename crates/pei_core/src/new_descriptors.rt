// The action that makes a descriptor.
ghost use Rattle.std.specs.Prelude.{◌≡◌, ◌<◌, IfSome};
ghost use Rattle.act_code.specs.declared.action.Action.TheVariants as A;
ghost use Rattle.boot_model.specs.PeiAction as P;
ghost use Rattle.store_model.specs.{StateFacts.IsNumberOf, Service.Present};
ghost use Rattle.boot_model.specs.MachineFacts.{HoldRegisters, IsModuleNumber};
ghost use Rattle.pei_core.specs.{Needs.IsArgument, Taken.Acts, Taken.ChangedNone};

use crate::address::address;
use crate::taken::Taken;
use act_code::GuidArg;
use act_code::descriptor_kind::{CALLBACK, PPI};
use boot_model::{BLOCKS, CallName, Extra, PeiFrame, REGISTERS, Register};
use phase_parts::{Writes, number_in};
use pi_base::{OutOfMemory, Word};
use store_model::{DescKind, GuidFrom, PeiStore};

// The kind that a number is.
fn kind_of(number: u8) -> DescKind
    ensures { result ≡ P.kind_number number }
{
    match number {
        PPI => DescKind::Ppi,
        CALLBACK => DescKind::Callback,
        _ => DescKind::Dispatch,
    }
}

// The source of a descriptor's GUID.
fn guid_from(registers: &[Register; REGISTERS], guid: &GuidArg) -> Option<GuidFrom>
    ensures { result ≡ P.guid_arg registers.now guid.now }
{
    match guid {
        GuidArg::Inline(guid) => Some(GuidFrom::Inline(*guid)),
        GuidArg::Register(v) => match number_in(registers, *v) {
            Some(address) => Some(GuidFrom::At(address)),
            None => None,
        },
    }
}

// A PPI's value, or the entry of a notification.
fn number_of(frame: &PeiFrame, kind: DescKind, arg: u8) -> Option<u64>
    requires arg { IsArgument kind arg }
    requires number { IsModuleNumber frame.now.module_number }
    ensures number { result ≡ P.desc_number frame.now.module_number frame.now.registers kind arg }
    ensures fits { IfSome result (λ number. IsNumberOf kind number) }
{
    match kind {
        DescKind::Ppi => number_in(&frame.registers, arg),
        DescKind::Callback | DescKind::Dispatch => {
            Some((frame.module_number * BLOCKS + arg as u32) as u64)
        }
    }
}

// The kind, the GUID and the number of a new descriptor.
fn argument(frame: &PeiFrame, kind: DescKind, guid: &GuidArg, arg: u8) -> Option<(GuidFrom, u64)>
    requires arg { IsArgument kind arg }
    requires number { IsModuleNumber frame.now.module_number }
    ensures argument { result ≡ P.desc_argument frame.now kind guid.now arg }
    ensures fits { IfSome result (λ argument. IsNumberOf kind argument.1) }
{
    match (
        guid_from(&frame.registers, guid),
        number_of(frame, kind, arg),
    ) {
        (Some(guid), Some(number)) => Some((guid, number)),
        _ => None,
    }
}

/// Does the action `desc`: makes a descriptor.
pub fn make_descriptor<M: PeiStore>(
    store: &mut M,
    frame: &PeiFrame,
    d: u8,
    kind: u8,
    guid: &GuidArg,
    arg: u8,
) -> Result<Taken, OutOfMemory>
    requires arg { IsArgument (P.kind_number kind) arg }
    requires number { IsModuleNumber frame.now.module_number }
    requires state { Present (M.stands_for store.old) (HoldRegisters frame.now.registers) }
    ensures row { Acts M.TAKES_MEMORY (M.stands_for store.old) (M.stands_for store.new) (A.Desc d kind guid.now arg) frame.now result }
    ensures changes { ChangedNone result }
{
    let kind = kind_of(kind);
    match argument(frame, kind, guid, arg) {
        None => Ok(Taken::refusal(CallName::Desc, Word::InvalidParameter)),
        Some((guid, number)) => match store.desc(kind, guid, number) {
            Ok(made) => {
                let address = address(store, made.offset);
                Ok(Taken::told(
                    CallName::Desc,
                    Extra::Number(address),
                    Writes::one(d, Register::DescriptorIn(made)),
                ))
            }
            Err(fault) => Taken::refused(CallName::Desc, fault),
        },
    }
}
