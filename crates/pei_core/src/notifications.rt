// The action that registers notifications.
ghost use Rattle.act_code.specs.declared.action.Action.TheVariants as A;
ghost use Rattle.store_model.specs.{Service.Present, StoreCall.AreFew};
ghost use Rattle.boot_model.specs.MachineFacts.{HoldRegisters};
ghost use Rattle.pei_core.specs.Taken.{Acts, ChangedNone};

use crate::descriptors::descriptors_in;
use crate::guids::Changes;
use crate::taken::Taken;
use arrayvec::ArrayVec;
use boot_model::{CallName, PeiFrame};
use pi_base::{OutOfMemory, Word};
use store_model::PeiStore;

/// Does the action `notify`: registers notifications.
pub fn notify_ppis<M: PeiStore>(
    store: &mut M,
    frame: &PeiFrame,
    list: &[u8],
) -> Result<Taken, OutOfMemory>
    requires few { AreFew list.now }
    requires state { Present (M.stands_for store.old) (HoldRegisters frame.now.registers) }
    ensures row { Acts M.TAKES_MEMORY (M.stands_for store.old) (M.stands_for store.new) (A.Notify list.now) frame.now result }
    ensures changes { ChangedNone result }
{
    match descriptors_in(&frame.registers, list) {
        None => Ok(Taken::refusal(CallName::Notify, Word::InvalidParameter)),
        Some(found) => match store.notify(found.as_slice(), frame.module_number) {
            Ok(sweep) => Ok(Taken::swept(
                CallName::Notify,
                sweep,
                ArrayVec::new(),
                Changes::none(),
            )),
            Err(fault) => Taken::refused(CallName::Notify, fault),
        },
    }
}
