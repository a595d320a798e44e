// The stop of DXE.
ghost use Rattle.boot_io.specs.Sink.{SinkFaultsAfter};
ghost use Rattle.dxe_dispatch.specs.Turns.{PutsStop};

use crate::DriverQueue;
use crate::waiting::put_all_waiting;
use boot_io::{Sink, SinkFault};
use boot_model::Line;
use boot_trace::put;
use dxe_core::Dxe;
use mod_catalog::Catalog;

/// The lines of the stop: a line for each driver that waits, in discovered order.
pub(crate) fn put_stop<S: Sink>(
    dxe: &Dxe,
    queue: &DriverQueue,
    catalog: &Catalog,
    sink: &mut S,
) -> Result<(), SinkFault>
    ensures row { PutsStop catalog.now dxe.now queue.now (S.text sink.old) (S.text sink.new) result }
    ensures cause { SinkFaultsAfter result (S.faults sink.old) (S.faults sink.new) }
{
    put(sink, &Line::DxeStop)?;
    put_all_waiting(catalog, dxe.order().drivers(), queue, dxe.requested(), sink)
}
