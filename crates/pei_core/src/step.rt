// One step of the machine, by its cases.
ghost use Rattle.std.specs.Prelude.{ℕ, None};
ghost use Rattle.boot_io.specs.Halted.{HaltsAfter};
ghost use Rattle.boot_model.specs.PeiMachine.{PeiMachine};
ghost use Rattle.mod_catalog.specs.WellFormed.{IsWellFormed};
ghost use Rattle.pei_core.specs.Parts.{Anywhere, FiresNext, StepsIn};
ghost use Rattle.pei_core.specs.Standing.{IsFor, KeepsFor, StandsFor, last_start};

use crate::event::Stepped;
use crate::pei::Pei;
use boot_io::{Halt, Sink};
use mod_catalog::Catalog;
use store_model::PeiStore;

impl<M: PeiStore + Drop> Pei<M> {
    // A step when no pair of the open sweep fires: the top frame's action; or between scripts the move, if it is due, or a notification of the queue.
    fn step_on<S: Sink>(&mut self, catalog: &Catalog, sink: &mut S) -> Result<Stepped, Halt>
        requires catalog { IsWellFormed catalog.now }
        requires made { (fuel : ℕ) × IsFor catalog.now fuel self.old }
        requires state { (m : PeiMachine) × StandsFor M.stands_for self.old m × FiresNext None m }
        ensures row { StepsIn (FiresNext None) M.TAKES_MEMORY M.stands_for catalog.now
            (record { pei = self.old; later = self.new; texts = record { old = S.text sink.old; new = S.text sink.new } }) result }
        ensures kept { KeepsFor catalog.now self.old self.new (last_start self.old) }
        ensures faults { HaltsAfter result (S.faults sink.old) (S.faults sink.new) }
    {
        if self.core.frames.top().is_some() {
            self.act(catalog, sink)
        } else if self.store.memory_due() {
            self.move_memory(sink)
        } else {
            self.step_queue(catalog, sink)
        }
    }

    // The first case that applies: a callback, the top frame's action, or what comes between scripts.
    pub(crate) fn step_by_case<S: Sink>(
        &mut self,
        catalog: &Catalog,
        sink: &mut S,
    ) -> Result<Stepped, Halt>
        requires catalog { IsWellFormed catalog.now }
        requires made { (fuel : ℕ) × IsFor catalog.now fuel self.old }
        requires state { (m : PeiMachine) × StandsFor M.stands_for self.old m }
        ensures row { StepsIn Anywhere M.TAKES_MEMORY M.stands_for catalog.now
            (record { pei = self.old; later = self.new; texts = record { old = S.text sink.old; new = S.text sink.new } }) result }
        ensures kept { KeepsFor catalog.now self.old self.new (last_start self.old) }
        ensures faults { HaltsAfter result (S.faults sink.old) (S.faults sink.new) }
    {
        match self.next_firing() {
            Some(next) => self.fire(catalog, next, sink),
            None => self.step_on(catalog, sink),
        }
    }
}
