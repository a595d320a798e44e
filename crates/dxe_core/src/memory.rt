// The action that reads memory.
ghost use Rattle.std.specs.Prelude.{◌≤◌, Ok};
ghost use Rattle.act_code.specs.declared.action.Action.TheVariants as A;
ghost use Rattle.mod_catalog.specs.declared.catalogue.Catalog.{Catalog};
ghost use Rattle.store_model.specs.{Service.Present, StoreCall.Anything};
ghost use Rattle.boot_model.specs.DxeMachine.{DxeMachine};
ghost use Rattle.dxe_core.specs.{Reply.Replies, Services.Services, Services.AreServicesOf};

use crate::reply::Reply;
use boot_model::{CallName, DriverFrame};
use phase_parts::{Writes, peek};
use store_model::PeiStore;

/// The action `peek`, over the store of the hand-off.
pub(crate) fn read_memory<M: PeiStore>(store: &M, frame: &DriverFrame, v: u8, n: u8) -> Reply
    requires few { n ≤ 64 }
    requires state { Present (M.stands_for store.now) Anything }
    ensures row { (catalog : Catalog) (services : Services) (m : DxeMachine) → M.stands_for store.now m.store
        → AreServicesOf catalog m services → Replies catalog m frame.now (A.Peek v n) (Ok result) services }
{
    let read = peek(store, &frame.registers, v, n);
    Reply::answered(CallName::Peek, read.status, read.extra, Writes::Nothing)
}
