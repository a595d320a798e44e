// One action of PEI's own.
ghost use Rattle.std.specs.Prelude.{◌≡◌, None};
ghost use Rattle.pi_base.specs.declared.phase.Phase.TheVariants.{Pei as InPei};
ghost use Rattle.store_model.specs.Service.{Present};
ghost use Rattle.boot_model.specs.MachineFacts.{HoldRegisters, IsModuleNumber};
ghost use Rattle.phase_parts.specs.{Deed.deed, Needs.IsScriptAction};
ghost use Rattle.pei_core.specs.Taken.{Acts, Changed};

use crate::address::write_address;
use crate::hobs::make_hob;
use crate::memory::{boot_mode, plan_memory, take_pages};
use crate::new_descriptors::make_descriptor;
use crate::notifications::notify_ppis;
use crate::pools::{make_pool, read_memory, write_pool};
use crate::ppis::{install_ppis, locate_ppi, reinstall_ppi};
use crate::taken::Taken;
use act_code::Action;
use boot_model::PeiFrame;
use pi_base::OutOfMemory;
use store_model::PeiStore;

/// Takes an action that only PEI scripts have, over any store. What it writes to its frame is still to be done by the caller.
pub fn take_own<M: PeiStore>(
    store: &mut M,
    frame: &PeiFrame,
    action: &Action,
) -> Result<Taken, OutOfMemory>
    requires action { IsScriptAction InPei action.now }
    requires own { deed frame.now action.now ≡ None }
    requires number { IsModuleNumber frame.now.module_number }
    requires state { Present (M.stands_for store.old) (HoldRegisters frame.now.registers) }
    ensures row { Acts M.TAKES_MEMORY (M.stands_for store.old) (M.stands_for store.new) action.now frame.now result }
    ensures changes { Changed (M.stands_for store.old) action.now frame.now result }
{
    match action {
        Action::Addr { v, x, offset } => Ok(write_address(store, frame, *v, *x, *offset)),
        Action::Pool { r, size } => make_pool(store, *r, *size),
        Action::Store { p, offset, bytes } => {
            Ok(write_pool(store, frame, *p, *offset, bytes.as_slice()))
        }
        Action::Peek { v, n } => Ok(read_memory(store, frame, *v, *n)),
        Action::Desc { d, kind, guid, arg } => make_descriptor(store, frame, *d, *kind, guid, *arg),
        Action::Install { list } => install_ppis(store, frame, list.as_slice()),
        Action::Reinstall { old, new } => reinstall_ppi(store, frame, *old, *new),
        Action::Notify { list } => notify_ppis(store, frame, list.as_slice()),
        Action::Locate {
            d,
            v,
            guid,
            instance,
        } => Ok(locate_ppi(store, *d, *v, guid, *instance)),
        Action::Hob { kind, body } => make_hob(store, *kind, body.as_slice()),
        Action::Memory { begin, length } => plan_memory(store, frame, *begin, *length),
        Action::Pages {
            r,
            memory_type,
            count,
        } => take_pages(store, *r, *memory_type, *count),
        Action::BootMode { form, r } => Ok(boot_mode(store, frame, *form, *r)),
        Action::Shadow => Ok(Taken::Shadowed),
        _ => unreachable!(),
    }
}
