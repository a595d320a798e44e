// The action that registers a notification of a protocol.
ghost use Rattle.std.specs.Prelude.{OnOk};
ghost use Rattle.act_code.specs.declared.action.Action.TheVariants as A;
ghost use Rattle.mod_catalog.specs.declared.catalogue.Catalog.{Catalog};
ghost use Rattle.dxe_core.specs.Answered.{GrowByOne, Serves};

use crate::reply::Reply;
use crate::services::DxeServices;
use boot_model::{CallName, DriverFrame, Extra, ProtocolNote};
use phase_parts::Writes;
use pi_base::{Guid, OutOfMemory};

/// The action `notify`: the notification is after those that are registered.
pub(crate) fn notify(
    services: &mut DxeServices,
    frame: &DriverFrame,
    guid: &Guid,
    block: u8,
) -> Result<Reply, OutOfMemory>
    ensures row { (catalog : Catalog) → Serves catalog services.old frame.now (A.DxeNotify guid.now block) result services.new }
    ensures grow { OnOk result (GrowByOne services.old services.new) }
{
    let note = ProtocolNote {
        guid: *guid,
        module_number: frame.module_number,
        block,
    };
    services.notes.push(note)?;
    Ok(Reply::told(CallName::Notify, Extra::Nothing, Writes::Nothing))
}
