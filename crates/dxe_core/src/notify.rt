//! The notifications of the top frame's sweep.
ghost use Rattle.std.specs.Prelude.{◌≡◌, ℕ, OnOk};
ghost use Rattle.boot_io.specs.Halted.{HaltsAfter};
ghost use Rattle.boot_model.specs.{DxeMachine.DxeMachine, DxeMachine.protocol_frame, DxeStep.next_note};
ghost use Rattle.dxe_core.specs.{Parts.StepsFired, Parts.next_of_top, Standing.IsFor};

use crate::dxe::Dxe;
use crate::event::Event;
use crate::lines::protocol_line;
use crate::services::DxeServices;
use crate::stepped::Stepped;
use boot_io::{Halt, Sink};
use boot_model::{DriverFrame, DxeEnd, ProtocolNote, ProtocolSweep, Register};
use boot_trace::put_made;
use mod_catalog::Catalog;
use phase_parts::{begin_notification, notified};

// The frame in which a notification runs: it receives the interface and the handle.
fn notification_frame(note: &ProtocolNote, sweep: &ProtocolSweep) -> DriverFrame
    ensures { result ≡ protocol_frame sweep.now note.now }
{
    notified(
        note.module_number,
        note.block,
        Register::Number(sweep.interface),
        Register::HandleIn(sweep.handle),
    )
}

// The first notification of a sweep's protocol that it has still to visit, and the sweep after it.
fn next_of(services: &DxeServices, sweep: ProtocolSweep) -> Option<(ProtocolNote, ProtocolSweep)>
    ensures { (m : DxeMachine) → m.notes ≡ services.now.notes → result ≡ next_note m sweep }
{
    let place = match services.notes.next(&sweep.guid, sweep.note_at) {
        Some(place) => place,
        None => return None,
    };
    if place >= sweep.note_to {
        return None;
    }
    match services.note(place) {
        Some(note) => {
            let mut behind = sweep;
            behind.note_at = place + 1;
            Some((*note, behind))
        }
        None => None,
    }
}

impl Dxe {
    // The notification of the top frame's call that begins next, and the sweep after it.
    pub(crate) fn next_notification(&self) -> Option<(ProtocolNote, ProtocolSweep)>
        ensures { (m : DxeMachine) → m.notes ≡ self.now.services.notes → result ≡ next_of_top m self.now.frames }
    {
        match self.frames.sweep() {
            Some(sweep) => next_of(&self.services, sweep),
            None => None,
        }
    }

    // Begins a notification, unless the most frames are running.
    pub(crate) fn notify<S: Sink>(
        &mut self,
        catalog: &Catalog,
        next: (ProtocolNote, ProtocolSweep),
        sink: &mut S,
    ) -> Result<Stepped, Halt>
        ensures row { StepsFired next catalog.now (record {
          before = self.old;
          later = self.new;
          old = S.text sink.old;
          new = S.text sink.new;
        }) result }
        ensures made { OnOk result ((fuel : ℕ) → IsFor catalog.now fuel self.old → IsFor catalog.now fuel self.new) }
        ensures faults { HaltsAfter result (S.faults sink.old) (S.faults sink.new) }
    {
        let (note, sweep) = next;
        if !begin_notification(&mut self.frames, notification_frame(&note, &sweep), sweep) {
            return Ok(Stepped::Ended(DxeEnd::Deep));
        }
        put_made(sink, protocol_line(catalog, &sweep, &note))?;
        Ok(Stepped::Went(Event::quiet()))
    }
}
