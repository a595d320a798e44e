// The action that requests a driver.
ghost use Rattle.std.specs.Prelude.{◌≡◌, ◌<◌, length, Some, IfSome, IsTrue};
ghost use Rattle.act_code.specs.declared.action.Action.TheVariants as A;
ghost use Rattle.boot_model.specs.DxeMachine.{DriverFrame};
ghost use Rattle.dxe_core.specs.{Answered.GrowByOne, Order.asking_of, Services.AreServicesFor};
ghost use Rattle.dxe_core.specs.Requests.{ServesRequest, first_down, is_down};

use crate::event::Event;
use crate::reply::Reply;
use crate::requests::is_requested;
use crate::services::DxeServices;
use boot_model::{CallName, Extra};
use mod_catalog::Catalog;
use phase_parts::Writes;
use pi_base::{Guid, Word};

// Whether a driver was not requested yet.
fn is_down(catalog: &Catalog, requested: &[bool], number: u32) -> bool
    ensures down { result ≡ is_down catalog.now requested.now number }
    ensures within { IsTrue result → number < length catalog.now.modules }
{
    match catalog.modules.as_slice().get(number as usize) {
        Some(_) => !is_requested(requested, number),
        None => false,
    }
}

// The first of these drivers that was not requested yet.
fn first_down(catalog: &Catalog, requested: &[bool], asking: &[u32]) -> Option<u32>
    ensures first { result ≡ first_down catalog.now requested.now asking.now }
    ensures within { IfSome result (λ number. number < length catalog.now.modules) }
{
    'drivers: for number in asking {
        if is_down(catalog, requested, *number) {
            return Some(*number);
        }
    }
    None
}

// The first driver of this file name, in discovered order, that a request is waited for.
fn asked_for(services: &DxeServices, catalog: &Catalog, name: &Guid) -> Option<u32>
    ensures first { result ≡ first_down catalog.now services.now.requested (asking_of services.now.order name.now) }
    ensures within { IfSome result (λ number. number < length catalog.now.modules) }
{
    first_down(
        catalog,
        services.requested.as_slice(),
        services.order.asking(name),
    )
}

/// The action `schedule`: the first driver of a file name that waits for a request is requested.
pub(crate) fn schedule(services: &mut DxeServices, catalog: &Catalog, name: &Guid) -> Reply
    requires flags { AreServicesFor catalog.now services.old }
    ensures row { (frame : DriverFrame) → ServesRequest catalog.now services.old frame (A.Schedule name.now) result services.new }
    ensures grow { GrowByOne services.old services.new }
{
    match asked_for(services, catalog, name) {
        None => Reply::refusal(CallName::Schedule, Word::NotFound),
        Some(number) => {
            services.requested.set(number as usize, true);
            Reply::told(CallName::Schedule, Extra::Nothing, Writes::Nothing).did(Event::requests(
                number,
            ))
        }
    }
}
