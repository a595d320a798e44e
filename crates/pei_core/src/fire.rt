// The open sweep, and the callbacks that it fires.
ghost use Rattle.std.specs.Prelude.{◌≡◌, Some, None, length, nat_le, not, if◌then◌else◌};
ghost use Rattle.boot_io.specs.Halted.{HaltsAfter};
ghost use Rattle.boot_model.specs.{PeiMachine.PeiMachine, declared.frame.TheConstants.MOST_FRAMES};
ghost use Rattle.boot_model.specs.PeiStep as P;
ghost use Rattle.store_model.specs.Service.Sweep.{next_match};
ghost use Rattle.pei_core.specs.{Cores.with_callback, Parts.FiresNext, Parts.StepsIn};
ghost use Rattle.pei_core.specs.Standing.{IsCoreOf, KeepsFor, StandsFor, last_start};

use crate::core_state::Core;
use crate::event::{Event, Stepped};
use crate::names::callback_line;
use crate::pei::Pei;
use boot_io::{Halt, Sink};
use boot_model::{BLOCKS, PeiEnd, PeiFrame, Register};
use boot_trace::put_made;
use mod_catalog::Catalog;
use phase_parts::{begin_notification, notified};
use store_model::{Firing, PeiStore, Sweep};

/// The frame in which a notification runs.
pub(crate) fn notification_frame(firing: &Firing) -> PeiFrame
    ensures { result ≡ P.notification_frame firing.now }
{
    notified(
        firing.entry / BLOCKS,
        (firing.entry % BLOCKS) as u8,
        Register::Number(firing.value),
        Register::DescriptorIn(firing.ppi),
    )
}

impl Core {
    // The sweep that is open: the top frame's, or without frames the core's.
    fn open_sweep(&self) -> Option<Sweep>
        ensures { (m : PeiMachine) → IsCoreOf self.now m → result ≡ P.open_sweep m m.frames }
    {
        match self.frames.top() {
            Some(frame) => frame.sweep,
            None => self.sweep,
        }
    }

    // Begins a callback, unless the most frames are running. Returns whether it began.
    fn begin_callback(&mut self, firing: &Firing, sweep: Sweep) -> bool
        ensures room { result ≡ not (nat_le MOST_FRAMES (length self.old.frames)) }
        ensures core { self.new ≡ (if result then with_callback self.old firing.now sweep else self.old) }
    {
        let is_outermost = self.frames.top().is_none();
        if !begin_notification(&mut self.frames, notification_frame(firing), sweep) {
            return false;
        }
        if is_outermost {
            self.sweep = Some(sweep);
        }
        true
    }
}

impl<M: PeiStore + Drop> Pei<M> {
    // The first pair of the open sweep that fires now, with the sweep after it.
    pub(crate) fn next_firing(&self) -> Option<(Firing, Sweep)>
        requires state { (m : PeiMachine) × StandsFor M.stands_for self.now m }
        ensures { (m : PeiMachine) → StandsFor M.stands_for self.now m → FiresNext result m }
    {
        match self.core.open_sweep() {
            None => None,
            Some(open) => {
                let mut sweep = open;
                match self.store.next_match(&mut sweep) {
                    Some(firing) => Some((firing, sweep)),
                    None => None,
                }
            }
        }
    }

    // Begins the callback of a pair that fires, unless the most frames are running.
    pub(crate) fn fire<S: Sink>(
        &mut self,
        catalog: &Catalog,
        next: (Firing, Sweep),
        sink: &mut S,
    ) -> Result<Stepped, Halt>
        ensures row { StepsIn (FiresNext (Some next)) M.TAKES_MEMORY M.stands_for catalog.now
            (record { pei = self.old; later = self.new; texts = record { old = S.text sink.old; new = S.text sink.new } }) result }
        ensures kept { KeepsFor catalog.now self.old self.new (last_start self.old) }
        ensures faults { HaltsAfter result (S.faults sink.old) (S.faults sink.new) }
    {
        let (firing, sweep) = next;
        if !self.core.begin_callback(&firing, sweep) {
            return Ok(Stepped::Ended(PeiEnd::Deep));
        }
        put_made(sink, callback_line(catalog, &firing))?;
        Ok(Stepped::Went(Event::quiet()))
    }
}
