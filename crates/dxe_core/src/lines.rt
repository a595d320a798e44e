//! The lines of a step and of a start.
ghost use Rattle.std.specs.Prelude.{◌≡◌, ◌∷◌};
ghost use Rattle.boot_io.specs.Sink.{Puts, SinkFaultsAfter};
ghost use Rattle.boot_model.specs.{Discovery.discovery_lines, DxeStep.dxe_start_line, DxeStep.protocol_line, Text.text_of};

use boot_io::{Sink, SinkFault};
use boot_model::{Line, ProtocolNote, ProtocolSweep, Scheduled};
use boot_trace::put_made;
use mod_catalog::Catalog;
use phase_parts::{name_of, volume_of};

/// The line of a notification.
pub(crate) fn protocol_line(catalog: &Catalog, sweep: &ProtocolSweep, note: &ProtocolNote) -> Line
    ensures { result ≡ protocol_line catalog.now sweep.now note.now }
{
    Line::NotifyProtocol {
        volume: volume_of(catalog, note.module_number),
        name: name_of(catalog, note.module_number),
        fired: sweep.guid,
    }
}

/// The line of a start.
pub(crate) fn start_line(catalog: &Catalog, next: &Scheduled) -> Line
    ensures { result ≡ dxe_start_line catalog.now next.now.module_number next.now.licence }
{
    Line::DxeStart {
        volume: volume_of(catalog, next.module_number),
        name: name_of(catalog, next.module_number),
        licence: next.licence,
    }
}

/// Prints a line for each discovered volume. If the sink fails, a prefix of the text was written.
pub fn put_volumes<S: Sink>(sink: &mut S, volumes: &[u32]) -> Result<(), SinkFault>
    ensures text { Puts result (S.text sink.old) (S.text sink.new) (text_of (discovery_lines volumes.now)) }
    ensures cause { SinkFaultsAfter result (S.faults sink.old) (S.faults sink.new) }
{
    'volumes: for volume in volumes {
        put_made(sink, Line::DxeVolume { volume: *volume })?;
    }
    Ok(())
}

/// Writes the line of a call, and one for each volume that it discovers. If the sink fails, a prefix of their text was written.
pub(crate) fn put_reply<S: Sink>(sink: &mut S, call: Line, volumes: &[u32]) -> Result<(), SinkFault>
    ensures text { Puts result (S.text sink.old) (S.text sink.new) (text_of (call ∷ discovery_lines volumes.now)) }
    ensures cause { SinkFaultsAfter result (S.faults sink.old) (S.faults sink.new) }
{
    put_made(sink, call)?;
    put_volumes(sink, volumes)
}
