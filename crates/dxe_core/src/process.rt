// The action that discovers a volume.
ghost use Rattle.std.specs.Prelude.{◌<◌, length, ℕ, List, OnOk};
ghost use Rattle.act_code.specs.declared.action.Action.TheVariants as A;
ghost use Rattle.mod_catalog.specs.WellFormed.{IsWellFormed};
ghost use Rattle.dxe_core.specs.Order.{IsOrderOf};
ghost use Rattle.dxe_core.specs.Answered.{GrowByOne, ProcessesVolume, Serves};

use crate::event::Event;
use crate::reply::Reply;
use crate::services::DxeServices;
use boot_model::{CallName, DriverFrame, Extra};
use mod_catalog::Catalog;
use phase_parts::{Writes, number_in, volume_at};
use pi_base::{OutOfMemory, Word};

/// The action `process`: the volume at the address in a register is discovered, with those nested in it.
pub(crate) fn process(
    services: &mut DxeServices,
    catalog: &Catalog,
    frame: &DriverFrame,
    v: u8,
) -> Result<Reply, OutOfMemory>
    requires catalog { IsWellFormed catalog.now }
    requires order { (volumes : List ℕ) × IsOrderOf catalog.now volumes services.old.order }
    ensures row { Serves catalog.now services.old frame.now (A.Process v) result services.new }
    ensures grow { OnOk result (GrowByOne services.old services.new) }
{
    match number_in(&frame.registers, v) {
        None => Ok(Reply::refusal(CallName::Process, Word::InvalidParameter)),
        Some(base) => match volume_at(catalog, base) {
            None => Ok(Reply::refusal(CallName::Process, Word::NotFound)),
            Some(volume) => discover(services, catalog, volume),
        },
    }
}

// Discovers a volume of the catalogue that is new, and after it those nested in it.
fn discover(
    services: &mut DxeServices,
    catalog: &Catalog,
    volume: u32,
) -> Result<Reply, OutOfMemory>
    requires catalog { IsWellFormed catalog.now }
    requires order { (volumes : List ℕ) × IsOrderOf catalog.now volumes services.old.order }
    requires volume { volume < length catalog.now.volumes }
    ensures row { ProcessesVolume catalog.now services.old volume result services.new }
    ensures grow { OnOk result (GrowByOne services.old services.new) }
{
    if services.order.has_volume(volume) {
        return Ok(Reply::refusal(CallName::Process, Word::AlreadyStarted));
    }
    let count = services.order.add_counted(catalog, volume)?;
    Ok(Reply::told(CallName::Process, Extra::Nothing, Writes::Nothing).did(Event::discovers(count)))
}
