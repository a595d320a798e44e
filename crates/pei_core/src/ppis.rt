// Actions on PPIs.
ghost use Rattle.std.specs.Prelude.{Ok};
ghost use Rattle.act_code.specs.declared.action.Action.TheVariants as A;
ghost use Rattle.store_model.specs.{Service.Present, StoreCall.Anything, StoreCall.AreFew};
ghost use Rattle.boot_model.specs.{MachineFacts.HoldRegisters, PeiMachine.Frame};
ghost use Rattle.pei_core.specs.Taken.{Acts, Changed, ChangedNone, Reads};

use crate::descriptors::{descriptors_in, two_descriptors};
use crate::guids::{put_in, replaced};
use crate::taken::Taken;
use arrayvec::ArrayVec;
use boot_model::{CallName, Extra, PeiFrame, Register};
use phase_parts::{Write, Writes};
use pi_base::{Guid, OutOfMemory, Word};
use store_laws::bodies_stay;
use store_model::PeiStore;

/// Does the action `install`: installs PPIs.
pub fn install_ppis<M: PeiStore>(
    store: &mut M,
    frame: &PeiFrame,
    list: &[u8],
) -> Result<Taken, OutOfMemory>
    requires few { AreFew list.now }
    requires state { Present (M.stands_for store.old) (HoldRegisters frame.now.registers) }
    ensures row { Acts M.TAKES_MEMORY (M.stands_for store.old) (M.stands_for store.new) (A.Install list.now) frame.now result }
    ensures changes { Changed (M.stands_for store.old) (A.Install list.now) frame.now result }
{
    bodies_stay();
    match descriptors_in(&frame.registers, list) {
        None => Ok(Taken::refusal(CallName::Install, Word::InvalidParameter)),
        Some(found) => match store.install(found.as_slice(), frame.module_number) {
            Ok(sweep) => {
                let changes = put_in(store, found.as_slice());
                Ok(Taken::swept(CallName::Install, sweep, found, changes))
            }
            Err(fault) => Taken::refused(CallName::Install, fault),
        },
    }
}

/// Does the action `reinstall`: replaces a PPI by another.
pub fn reinstall_ppi<M: PeiStore>(
    store: &mut M,
    frame: &PeiFrame,
    old: u8,
    new: u8,
) -> Result<Taken, OutOfMemory>
    requires state { Present (M.stands_for store.old) (HoldRegisters frame.now.registers) }
    ensures row { Acts M.TAKES_MEMORY (M.stands_for store.old) (M.stands_for store.new) (A.Reinstall old new) frame.now result }
    ensures changes { Changed (M.stands_for store.old) (A.Reinstall old new) frame.now result }
{
    bodies_stay();
    match two_descriptors(&frame.registers, old, new) {
        None => Ok(Taken::refusal(CallName::Reinstall, Word::InvalidParameter)),
        Some((one, other)) => match store.reinstall(one, other, frame.module_number) {
            Ok(sweep) => {
                let mut installs = ArrayVec::new();
                installs.push(other);
                let changes = replaced(store, one, other);
                Ok(Taken::swept(CallName::Reinstall, sweep, installs, changes))
            }
            Err(fault) => Taken::refused(CallName::Reinstall, fault),
        },
    }
}

/// Does the action `locate`: finds a PPI.
pub fn locate_ppi<M: PeiStore>(store: &M, d: u8, v: u8, guid: &Guid, instance: u16) -> Taken
    requires state { Present (M.stands_for store.now) Anything }
    ensures row { (frame : Frame) → Reads (M.stands_for store.now) (A.Locate d v guid.now instance) frame result }
    ensures changes { ChangedNone (Ok result) }
{
    match store.nth_ppi(guid, instance) {
        None => Taken::refusal(CallName::Locate, Word::NotFound),
        Some((found, value)) => {
            let descriptor = Write {
                r: d,
                register: Register::DescriptorIn(found),
            };
            let number = Write {
                r: v,
                register: Register::Number(value),
            };
            Taken::told(
                CallName::Locate,
                Extra::Number(value),
                Writes::Two(descriptor, number),
            )
        }
    }
}
