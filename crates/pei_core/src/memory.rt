// Actions on memory: permanent memory, pages and the boot mode.
ghost use Rattle.std.specs.Prelude.{◌≡◌, ◌<◌, ◌≤◌, ◌==◌, ◌&&◌, not, IsTrue, Ok};
ghost use Rattle.act_code.specs.declared.action.Action.TheVariants as A;
ghost use Rattle.boot_model.specs.PeiAction as P;
ghost use Rattle.boot_model.specs.{Registers.both, MachineFacts.HoldRegisters, PeiMachine.Frame};
ghost use Rattle.boot_model.specs.Registers as R;
ghost use Rattle.store_model.specs.{Service.Present, StoreCall.Anything};
ghost use Rattle.pei_core.specs.Taken.{Acts, ActsAlways, ChangedNone, Reads};

use crate::taken::Taken;
use boot_model::{CallName, Extra, PeiFrame, REGISTERS, Register};
use phase_parts::{Writes, number_in};
use pi_base::{OutOfMemory, Word};
use store_model::PeiStore;

// The numbers in two registers, if both hold one.
fn numbers_in(registers: &[Register; REGISTERS], first: u8, second: u8) -> Option<(u64, u64)>
    ensures { result ≡ both (R.number_in registers.now first) (R.number_in registers.now second) }
{
    match (number_in(registers, first), number_in(registers, second)) {
        (Some(one), Some(other)) => Some((one, other)),
        _ => None,
    }
}

/// Does the action `memory`: reports where permanent memory is.
pub fn plan_memory<M: PeiStore>(
    store: &mut M,
    frame: &PeiFrame,
    begin: u8,
    length: u8,
) -> Result<Taken, OutOfMemory>
    requires state { Present (M.stands_for store.old) (HoldRegisters frame.now.registers) }
    ensures row { Acts M.TAKES_MEMORY (M.stands_for store.old) (M.stands_for store.new) (A.Memory begin length) frame.now result }
    ensures changes { ChangedNone result }
{
    match numbers_in(&frame.registers, begin, length) {
        None => Ok(Taken::refusal(CallName::Memory, Word::InvalidParameter)),
        Some((begin, length)) => match store.set_memory(begin, length) {
            Ok(()) => Ok(Taken::told(CallName::Memory, Extra::Nothing, Writes::Nothing)),
            Err(fault) => Taken::refused(CallName::Memory, fault),
        },
    }
}

// Whether so many pages of this type of memory may be asked for.
fn may_take(memory_type: u8, count: u32) -> bool
    ensures may { result ≡ (P.is_memory_type memory_type && not (count == 0)) }
    ensures some { IsTrue result → 1 ≤ count }
{
    (memory_type <= 6 || memory_type == 9 || memory_type == 10) && count != 0
}

/// Does the action `pages`: takes pages.
pub fn take_pages<M: PeiStore>(
    store: &mut M,
    r: u8,
    memory_type: u8,
    count: u32,
) -> Result<Taken, OutOfMemory>
    requires state { Present (M.stands_for store.old) Anything }
    ensures row { (frame : Frame) → Acts M.TAKES_MEMORY (M.stands_for store.old) (M.stands_for store.new) (A.Pages r memory_type count)
        frame result }
    ensures changes { ChangedNone result }
{
    if !may_take(memory_type, count) {
        return Ok(Taken::refusal(CallName::Pages, Word::InvalidParameter));
    }
    match store.pages(memory_type as u32, count) {
        Ok(address) => Ok(Taken::told(
            CallName::Pages,
            Extra::Number(address),
            Writes::one(r, Register::Number(address)),
        )),
        Err(fault) => Taken::refused(CallName::Pages, fault),
    }
}

// The action `boot_mode` that gets.
fn get_boot_mode<M: PeiStore>(store: &M, r: u8) -> Taken
    requires state { Present (M.stands_for store.now) Anything }
    ensures row { (frame : Frame) → Reads (M.stands_for store.now) (A.BootMode 0 r) frame result }
    ensures changes { ChangedNone (Ok result) }
{
    let mode = store.boot_mode() as u64;
    Taken::told(
        CallName::BootMode,
        Extra::Number(mode),
        Writes::one(r, Register::Number(mode)),
    )
}

// The action `boot_mode` that sets.
fn set_boot_mode<M: PeiStore>(store: &mut M, frame: &PeiFrame, r: u8) -> Taken
    requires state { Present (M.stands_for store.old) (HoldRegisters frame.now.registers) }
    ensures row { ActsAlways (M.stands_for store.old) (M.stands_for store.new) (A.BootMode 1 r) frame.now result }
    ensures changes { ChangedNone (Ok result) }
{
    match number_in(&frame.registers, r) {
        Some(mode) if mode <= u32::MAX as u64 => {
            store.set_boot_mode(mode as u32);
            Taken::told(CallName::BootMode, Extra::Nothing, Writes::Nothing)
        }
        _ => Taken::refusal(CallName::BootMode, Word::InvalidParameter),
    }
}

/// Does the action `boot_mode`: reads or sets the boot mode.
pub fn boot_mode<M: PeiStore>(store: &mut M, frame: &PeiFrame, form: u8, r: u8) -> Taken
    requires state { Present (M.stands_for store.old) (HoldRegisters frame.now.registers) }
    ensures row { ActsAlways (M.stands_for store.old) (M.stands_for store.new) (A.BootMode form r) frame.now result }
    ensures changes { ChangedNone (Ok result) }
{
    if form == 0 {
        get_boot_mode(store, r)
    } else {
        set_boot_mode(store, frame, r)
    }
}
