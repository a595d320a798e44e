// Actions on pools, and reading memory.
ghost use Rattle.std.specs.Prelude.{◌≤◌, Ok};
ghost use Rattle.act_code.specs.declared.action.Action.TheVariants as A;
ghost use Rattle.store_model.specs.{Service.Present, StoreCall.Anything};
ghost use Rattle.boot_model.specs.{MachineFacts.HoldRegisters, PeiMachine.Frame};
ghost use Rattle.pei_core.specs.Taken.{Acts, ActsAlways, ChangedNone, Reads};

use crate::address::address;
use crate::taken::Taken;
use boot_model::{CallName, Extra, PeiFrame, Register};
use phase_parts::{Writes, peek, pool_in};
use pi_base::{OutOfMemory, Word};
use store_model::PeiStore;

/// Does the action `pool`: makes a pool.
pub fn make_pool<M: PeiStore>(store: &mut M, r: u8, size: u32) -> Result<Taken, OutOfMemory>
    requires state { Present (M.stands_for store.old) Anything }
    ensures row { (frame : Frame) → Acts M.TAKES_MEMORY (M.stands_for store.old) (M.stands_for store.new) (A.Pool r size) frame result }
    ensures changes { ChangedNone result }
{
    match store.pool(size) {
        Ok(made) => {
            let address = address(store, made.offset);
            Ok(Taken::told(
                CallName::Pool,
                Extra::Number(address),
                Writes::one(r, Register::PoolIn(made)),
            ))
        }
        Err(fault) => Taken::refused(CallName::Pool, fault),
    }
}

/// Does the action `store`: writes bytes into a pool.
pub fn write_pool<M: PeiStore>(
    store: &mut M,
    frame: &PeiFrame,
    p: u8,
    offset: u32,
    bytes: &[u8],
) -> Taken
    requires state { Present (M.stands_for store.old) (HoldRegisters frame.now.registers) }
    ensures row { ActsAlways (M.stands_for store.old) (M.stands_for store.new) (A.Store p offset bytes.now) frame.now result }
    ensures changes { ChangedNone (Ok result) }
{
    match pool_in(&frame.registers, p) {
        None => Taken::refusal(CallName::Store, Word::InvalidParameter),
        Some(pool) => {
            if store.store(pool, offset, bytes) {
                Taken::told(CallName::Store, Extra::Nothing, Writes::Nothing)
            } else {
                Taken::refusal(CallName::Store, Word::InvalidParameter)
            }
        }
    }
}

/// Does the action `peek`: reads memory.
pub fn read_memory<M: PeiStore>(store: &M, frame: &PeiFrame, v: u8, n: u8) -> Taken
    requires few { n ≤ 64 }
    requires state { Present (M.stands_for store.now) (HoldRegisters frame.now.registers) }
    ensures row { Reads (M.stands_for store.now) (A.Peek v n) frame.now result }
    ensures changes { ChangedNone (Ok result) }
{
    let read = peek(store, &frame.registers, v, n);
    Taken::answered(CallName::Peek, read.status, read.extra, Writes::Nothing)
}
