//! One action of DXE's own.
ghost use Rattle.std.specs.Prelude.{◌≡◌, ◌<◌, ◌+◌, ◌-◌, ◌^◌, ℕ, None, OnOk};
ghost use Rattle.pi_base.specs.declared.phase.Phase.TheVariants.{Dxe as InDxe};
ghost use Rattle.mod_catalog.specs.WellFormed.{IsWellFormed};
ghost use Rattle.store_model.specs.{Service.Present, StoreCall.Anything};
ghost use Rattle.boot_model.specs.DxeMachine.{DxeMachine};
ghost use Rattle.phase_parts.specs.{Deed.deed, Needs.IsScriptAction};
ghost use Rattle.dxe_core.specs.Reply.{ServesOwn};
ghost use Rattle.dxe_core.specs.Services.{AreCounted, AreServicesFor, AreServicesOf};

use crate::handles::{install, locate, reinstall, uninstall};
use crate::memory::read_memory;
use crate::notifications::notify;
use crate::process::process;
use crate::reply::Reply;
use crate::schedule::schedule;
use crate::services::DxeServices;
use act_code::Action;
use boot_model::{CallName, DriverFrame};
use mod_catalog::Catalog;
use pi_base::{OutOfMemory, Word};
use store_model::PeiStore;

/// Takes an action that only DXE scripts have. What it writes to its frame is still to be done by the caller. A refusal changes nothing. If memory runs out,
/// the services are left unfinished.
pub fn take_own<M: PeiStore>(
    services: &mut DxeServices,
    store: &M,
    catalog: &Catalog,
    frame: &DriverFrame,
    action: &Action,
) -> Result<Reply, OutOfMemory>
    requires catalog { IsWellFormed catalog.now }
    requires action { IsScriptAction InDxe action.now }
    requires own { deed frame.now action.now ≡ None }
    requires made { AreServicesFor catalog.now services.old }
    requires counted { (n : ℕ) × (n < 2 ^ 32 - 1) × AreCounted n services.old }
    requires state { Present (M.stands_for store.now) Anything }
    requires machine { (m : DxeMachine) × AreServicesOf catalog.now m services.old }
    ensures row { ServesOwn M.stands_for store.now catalog.now services.old frame.now action.now services.new result }
    ensures made { OnOk result (AreServicesFor catalog.now services.new) }
    ensures counted { OnOk result ((n : ℕ) → AreCounted n services.old → AreCounted (n + 1) services.new) }
{
    match action {
        Action::Peek { v, n } => Ok(read_memory(store, frame, *v, *n)),
        Action::DxeInstall { form, h, guid, v } => install(services, frame, *form, *h, guid, *v),
        Action::DxeReinstall { h, guid, old, new } => {
            reinstall(services, frame, *h, guid, *old, *new)
        }
        Action::DxeUninstall { h, guid, v } => uninstall(services, frame, *h, guid, *v),
        Action::DxeLocate { h, v, guid } => Ok(locate(services, *h, *v, guid)),
        Action::DxeNotify { guid, block } => notify(services, frame, guid, *block),
        Action::Schedule { guid } => Ok(schedule(services, catalog, guid)),
        Action::Process { v } => process(services, catalog, frame, *v),
        Action::Dispatch => Ok(Reply::refusal(CallName::Dispatch, Word::AlreadyStarted)),
        _ => unreachable!(),
    }
}
