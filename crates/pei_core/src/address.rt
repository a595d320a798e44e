// Addresses in the heap.
ghost use Rattle.std.specs.Prelude.{◌≡◌, ◌+◌, ◌≤◌, Ok};
ghost use Rattle.act_code.specs.declared.action.Action.TheVariants as A;
ghost use Rattle.boot_plan.specs.declared.limits.TheConstants.{MOST_END};
ghost use Rattle.store_model.specs.{StoreState.end_place, Service.Present, Service.OfEach};
ghost use Rattle.boot_model.specs.MachineFacts.{HoldRegisters};
ghost use Rattle.pei_core.specs.Taken.{ChangedNone, Reads};

use crate::taken::Taken;
use boot_model::{PeiFrame, Register};
use phase_parts::{Writes, offset_in};
use pi_base::Word;
use store_model::PeiStore;

/// The physical address of an offset of the heap, which is not after the end HOB.
pub fn address<M: PeiStore>(store: &M, offset: u64) -> u64
    requires state { Present (M.stands_for store.now) (λ s. offset ≤ end_place s) }
    ensures row { OfEach (M.stands_for store.now) (λ s. offset ≤ end_place s) (λ s. result ≡ s.base + offset) }
    ensures end { result ≤ MOST_END }
{
    store.base() + offset
}

/// The action `addr`: the address of the body of a register's pool or descriptor, plus so many bytes.
pub fn write_address<M: PeiStore>(store: &M, frame: &PeiFrame, v: u8, x: u8, more: u32) -> Taken
    requires state { Present (M.stands_for store.now) (HoldRegisters frame.now.registers) }
    ensures row { Reads (M.stands_for store.now) (A.Addr v x more) frame.now result }
    ensures changes { ChangedNone (Ok result) }
{
    match offset_in(&frame.registers, x) {
        None => Taken::Wrote {
            status: Word::InvalidParameter,
            writes: Writes::Nothing,
        },
        Some(offset) => Taken::Wrote {
            status: Word::Success,
            writes: Writes::one(v, Register::Number(address(store, offset) + more as u64)),
        },
    }
}
