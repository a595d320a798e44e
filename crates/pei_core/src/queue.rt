// The queue of dispatch notifications.
ghost use Rattle.std.specs.Prelude.{◌≡◌, []};
ghost use Rattle.boot_io.specs.Halted.{HaltsAfter};
ghost use Rattle.boot_model.specs.PeiMachine.{PeiMachine};
ghost use Rattle.pei_core.specs.{Cores.with_notification, Parts.PopsPair, Parts.StepsIn};
ghost use Rattle.pei_core.specs.Standing.{KeepsFor, StandsFor, last_start};

use crate::core_state::Core;
use crate::event::{Event, Stepped};
use crate::fire::notification_frame;
use crate::names::dispatch_line;
use crate::pei::Pei;
use boot_io::{Halt, Sink};
use boot_trace::put_made;
use mod_catalog::Catalog;
use store_model::{Firing, PeiStore};

impl Core {
    // A dispatch notification begins, if no script runs.
    fn begin_dispatch(&mut self, firing: &Firing)
        requires { self.old.frames ≡ [] }
        ensures { self.new ≡ with_notification self.old firing.now }
    {
        self.sweep = None;
        self.frames.begin(notification_frame(firing));
    }
}

impl<M: PeiStore + Drop> Pei<M> {
    // Removes the first queued pair and begins its notification. If the queue is empty, nothing is done.
    pub(crate) fn step_queue<S: Sink>(
        &mut self,
        catalog: &Catalog,
        sink: &mut S,
    ) -> Result<Stepped, Halt>
        requires frames { self.old.core.frames ≡ [] }
        requires state { (m : PeiMachine) × StandsFor M.stands_for self.old m }
        ensures row { StepsIn PopsPair M.TAKES_MEMORY M.stands_for catalog.now
            (record { pei = self.old; later = self.new; texts = record { old = S.text sink.old; new = S.text sink.new } }) result }
        ensures kept { KeepsFor catalog.now self.old self.new (last_start self.old) }
        ensures faults { HaltsAfter result (S.faults sink.old) (S.faults sink.new) }
    {
        match self.store.queue_pop() {
            None => Ok(Stepped::Idle),
            Some(firing) => {
                self.core.begin_dispatch(&firing);
                put_made(sink, dispatch_line(catalog, &firing))?;
                Ok(Stepped::Went(Event::quiet()))
            }
        }
    }
}
