// The action that makes a HOB.
ghost use Rattle.std.specs.Prelude.{◌≡◌, ◌<◌, length, true};
ghost use Rattle.act_code.specs.declared.action.Action.TheVariants as A;
ghost use Rattle.act_code.specs.Format.{is_hob};
ghost use Rattle.store_model.specs.{Service.Present, StoreCall.Anything};
ghost use Rattle.boot_model.specs.PeiMachine.{Frame};
ghost use Rattle.pei_core.specs.Taken.{Acts, ChangedNone};

use crate::taken::Taken;
use boot_model::{CallName, Extra};
use hob_codec::hob_of;
use phase_parts::Writes;
use pi_base::{OutOfMemory, Word};
use store_model::PeiStore;

/// Does the action `hob`: makes a HOB.
pub fn make_hob<M: PeiStore>(store: &mut M, kind: u8, body: &[u8]) -> Result<Taken, OutOfMemory>
    requires hob { is_hob kind (length body.now) ≡ true }
    requires state { Present (M.stands_for store.old) Anything }
    ensures row { (frame : Frame) → Acts M.TAKES_MEMORY (M.stands_for store.old) (M.stands_for store.new) (A.Hob kind body.now) frame
        result }
    ensures changes { ChangedNone result }
{
    match hob_of(kind as u16, body) {
        None => Ok(Taken::refusal(CallName::Hob, Word::InvalidParameter)),
        Some(hob) => match store.create_hob(&hob) {
            Ok(address) => Ok(Taken::told(CallName::Hob, Extra::Number(address), Writes::Nothing)),
            Err(fault) => Taken::refused(CallName::Hob, fault),
        },
    }
}
