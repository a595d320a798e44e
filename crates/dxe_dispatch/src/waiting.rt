// The drivers that wait after the stop.
ghost use Rattle.std.specs.Prelude.{◌≡◌, ◌&&◌, not, Some};
ghost use Rattle.boot_io.specs.Sink.{SinkFaultsAfter};
ghost use Rattle.mod_catalog.specs.Parts.{has_number};
ghost use Rattle.boot_model.specs.{DxeChoice.asks_for_request, DxeMachine.DxeMachine};
ghost use Rattle.boot_model.specs.DxeStep as D;
ghost use Rattle.dxe_dispatch.specs.Waiting.{PutsWaiting, PutsAllWaiting};

use crate::DriverQueue;
use boot_io::{Sink, SinkFault};
use boot_model::{Line, Reason};
use boot_trace::put;
use depex_code::Depex;
use dxe_core::is_requested;
use mod_catalog::{Catalog, Part, PartExpr};
use phase_parts::{name_of, part_of, volume_of};
use pi_base::Phase;

// Why a driver waits that has this part.
fn reason_by(part: &Part, requested: bool) -> Reason
    ensures { result ≡ D.driver_reason_by (asks_for_request (Some part.now) && not requested) part.now.expr }
{
    match &part.expr {
        PartExpr::Absent => Reason::Absent,
        PartExpr::Malformed(_) => Reason::Malformed,
        PartExpr::Held(Depex::Before(_)) => Reason::Before,
        PartExpr::Held(Depex::After(_)) => Reason::After,
        PartExpr::Held(Depex::Expr { sor, .. }) => match *sor && !requested {
            true => Reason::Unrequested,
            false => Reason::False,
        },
    }
}

/// Why a driver waits, by whether it was requested.
pub fn reason_of(catalog: &Catalog, number: u32, requested: bool) -> Reason
    ensures { (m : DxeMachine) → requested ≡ has_number m.requested number → result ≡ D.driver_reason catalog.now m number }
{
    match part_of(catalog, Phase::Dxe, number) {
        Some(part) => reason_by(part, requested),
        None => Reason::False,
    }
}

// The line of a driver that waits.
fn waiting_line(catalog: &Catalog, number: u32, requested: bool) -> Line
    ensures { (m : DxeMachine) → requested ≡ has_number m.requested number → result ≡ D.driver_waiting_line catalog.now m number }
{
    Line::Waiting {
        volume: volume_of(catalog, number),
        name: name_of(catalog, number),
        reason: reason_of(catalog, number, requested),
    }
}

// That line, where it waits.
fn put_waiting<S: Sink>(
    catalog: &Catalog,
    number: u32,
    waits: bool,
    requested: bool,
    sink: &mut S,
) -> Result<(), SinkFault>
    ensures text { PutsWaiting catalog.now number waits requested (S.text sink.old) (S.text sink.new) result }
    ensures cause { SinkFaultsAfter result (S.faults sink.old) (S.faults sink.new) }
{
    if waits {
        let line = waiting_line(catalog, number, requested);
        put(sink, &line)
    } else {
        Ok(())
    }
}

/// A line for each of these drivers that waits.
pub(crate) fn put_all_waiting<S: Sink>(
    catalog: &Catalog,
    numbers: &[u32],
    queue: &DriverQueue,
    requested: &[bool],
    sink: &mut S,
) -> Result<(), SinkFault>
    ensures text { PutsAllWaiting catalog.now numbers.now queue.now requested.now (S.text sink.old) (S.text sink.new) result }
    ensures cause { SinkFaultsAfter result (S.faults sink.old) (S.faults sink.new) }
{
    'drivers: for number in numbers {
        let waits = queue.is_waiting(*number);
        let was_requested = is_requested(requested, *number);
        put_waiting(catalog, *number, waits, was_requested, sink)?;
    }
    Ok(())
}
