// What an event did is told to the queue.
ghost use Rattle.mod_catalog.specs.declared.catalogue.Catalog.{Catalog as OfCatalog};
ghost use Rattle.dxe_dispatch.specs.Queue.{IsQueueFor};
ghost use Rattle.dxe_dispatch.specs.Events.{OwesForChange, TellsQueue, TellsChange};

use crate::DriverQueue;
use depex_code::GuidSet;
use dxe_core::{Dxe, Event};
use pi_base::Guid;

// The protocol that was installed or uninstalled is on a handle now, or on none.
fn tell_change(dxe: &Dxe, queue: &mut DriverQueue, changed: Option<Guid>)
    requires made { (catalog : OfCatalog) × IsQueueFor catalog queue.old }
    ensures row { (catalog : OfCatalog) → IsQueueFor catalog queue.old → TellsChange catalog dxe.now queue.old changed queue.new }
    ensures made { (catalog : OfCatalog) → IsQueueFor catalog queue.old → IsQueueFor catalog queue.new }
    ensures owes { (catalog : OfCatalog) → IsQueueFor catalog queue.old → OwesForChange catalog queue.old changed queue.new }
{
    if let Some(guid) = changed {
        queue.change(&guid, dxe.handles().has(&guid));
    }
}

/// The protocol that an event changed, and the driver that it requested.
pub(crate) fn tell(dxe: &Dxe, queue: &mut DriverQueue, event: &Event)
    requires made { (catalog : OfCatalog) × IsQueueFor catalog queue.old }
    ensures row { (catalog : OfCatalog) → IsQueueFor catalog queue.old → TellsQueue catalog dxe.now queue.old event.now queue.new }
    ensures made { (catalog : OfCatalog) → IsQueueFor catalog queue.old → IsQueueFor catalog queue.new }
    ensures owes { (catalog : OfCatalog) → IsQueueFor catalog queue.old → OwesForChange catalog queue.old event.now.changed queue.new }
{
    tell_change(dxe, queue, event.changed);
    if let Some(number) = event.requested {
        queue.request(number);
    }
}
