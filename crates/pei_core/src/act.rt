// The next action of the top frame.
ghost use Rattle.std.specs.Prelude.{◌<◌, ℕ, length};
ghost use Rattle.boot_io.specs.Halted.{HaltsAfter};
ghost use Rattle.boot_model.specs.PeiMachine.{PeiMachine};
ghost use Rattle.mod_catalog.specs.{WellFormed.IsWellFormed, declared.catalogue.Catalog.Catalog as OfCatalog};
ghost use Rattle.pi_base.specs.Lists.{Each};
ghost use Rattle.store_model.specs.{StateFacts.IsDesc, Service.Present, StoreCall.Anything};
ghost use Rattle.phase_parts.specs.{Known.AreKnown, Needs.IsWithin};
ghost use Rattle.pei_core.specs.Parts.{AnswersCall, RegistersForShadow, RunsScript, StepsIn, TakesAction, TakesOwn};
ghost use Rattle.pei_core.specs.Standing.{IsFor, KeepsFor, StandsFor, last_start};

use crate::action::take_own;
use crate::event::{Again, Event, Stepped};
use crate::pei::Pei;
use crate::reports::{last_volumes, put_reports, report};
use crate::taken::{Reply, Taken};
use act_code::Action;
use boot_io::{Halt, Sink};
use boot_laws::replies_are_sound;
use boot_model::{CallName, Extra, Line, PeiEnd, state_of};
use boot_trace::put_made;
use mod_catalog::Catalog;
use phase_parts::{Acted, Writes, act, effects_are_alike};
use pi_base::Phase;
use store_model::PeiStore;

impl<M: PeiStore + Drop> Pei<M> {
    // The module of the top frame registers for shadow. If memory has moved, it may start again.
    fn shadow<S: Sink>(&mut self, number: u32, sink: &mut S) -> Result<Event, Halt>
        requires within { IsWithin self.old.core.frames }
        requires here { number < length self.old.core.states }
        requires state { Present (M.stands_for self.old.store) Anything }
        ensures row { RegistersForShadow M.TAKES_MEMORY M.stands_for number
            (record { pei = self.old; later = self.new; texts = record { old = S.text sink.old; new = S.text sink.new } }) result }
        ensures kept { (catalog : OfCatalog) → KeepsFor catalog self.old self.new (last_start self.old) }
        ensures faults { HaltsAfter result (S.faults sink.old) (S.faults sink.new) }
    {
        let state = state_of(self.core.states.as_slice(), number);
        let again = Again::by_registering(state, self.store.moved(), number);
        let status = self.core.register(number);
        self.core.frames.answer(&Writes::Nothing, status, None);
        put_made(
            sink,
            Line::Call {
                name: CallName::Shadow,
                status,
                extra: Extra::Nothing,
            },
        )?;
        Ok(Event::letting(again))
    }

    // A call of the top frame was answered: its line, and a line for each volume that it reports.
    fn answer<S: Sink>(
        &mut self,
        catalog: &Catalog,
        reply: Reply,
        sink: &mut S,
    ) -> Result<Event, Halt>
        requires catalog { IsWellFormed catalog.now }
        requires within { IsWithin self.old.core.frames }
        requires known { AreKnown catalog.now self.old.core.reported }
        requires state { Present (M.stands_for self.old.store) (λ s. Each (IsDesc s) reply.installs.items) }
        ensures row { AnswersCall M.TAKES_MEMORY M.stands_for catalog.now reply
            (record { pei = self.old; later = self.new; texts = record { old = S.text sink.old; new = S.text sink.new } }) result }
        ensures kept { KeepsFor catalog.now self.old self.new (last_start self.old) }
        ensures faults { HaltsAfter result (S.faults sink.old) (S.faults sink.new) }
    {
        let Reply {
            name,
            status,
            extra,
            writes,
            sweep,
            installs,
            changes,
        } = reply;
        self.core.frames.answer(&writes, status, sweep);
        let volumes = report(
            &mut self.core.reported,
            catalog,
            &self.store,
            installs.as_slice(),
        );
        put_made(
            sink,
            Line::Call {
                name,
                status,
                extra,
            },
        )?;
        put_reports(sink, last_volumes(&self.core.reported, volumes))?;
        Ok(Event {
            changes,
            again: Again::Nobody,
            volumes,
        })
    }

    // The top frame takes an action of PEI's own, which was counted.
    fn act_own<S: Sink>(
        &mut self,
        catalog: &Catalog,
        action: &Action,
        sink: &mut S,
    ) -> Result<Event, Halt>
        requires catalog { IsWellFormed catalog.now }
        requires made { (fuel : ℕ) × IsFor catalog.now fuel self.old }
        requires state { (m : PeiMachine) × StandsFor M.stands_for self.old m × TakesOwn catalog.now action.now m }
        ensures row { TakesAction M.TAKES_MEMORY M.stands_for catalog.now action.now
            (record { pei = self.old; later = self.new; texts = record { old = S.text sink.old; new = S.text sink.new } }) result }
        ensures kept { KeepsFor catalog.now self.old self.new (last_start self.old) }
        ensures faults { HaltsAfter result (S.faults sink.old) (S.faults sink.new) }
    {
        replies_are_sound();
        let Some(frame) = self.core.frames.top() else {
            unreachable!()
        };
        let number = frame.module_number;
        match take_own(&mut self.store, frame, action)? {
            Taken::Wrote { status, writes } => {
                self.core.frames.answer(&writes, status, None);
                Ok(Event::quiet())
            }
            Taken::Called(reply) => self.answer(catalog, reply, sink),
            Taken::Shadowed => self.shadow(number, sink),
        }
    }

    // The top frame takes its next action, unless the fuel is spent.
    pub(crate) fn act<S: Sink>(&mut self, catalog: &Catalog, sink: &mut S) -> Result<Stepped, Halt>
        requires catalog { IsWellFormed catalog.now }
        requires made { (fuel : ℕ) × IsFor catalog.now fuel self.old }
        requires state { (m : PeiMachine) × StandsFor M.stands_for self.old m × RunsScript m }
        ensures row { StepsIn RunsScript M.TAKES_MEMORY M.stands_for catalog.now
            (record { pei = self.old; later = self.new; texts = record { old = S.text sink.old; new = S.text sink.new } }) result }
        ensures kept { KeepsFor catalog.now self.old self.new (last_start self.old) }
        ensures faults { HaltsAfter result (S.faults sink.old) (S.faults sink.new) }
    {
        effects_are_alike();
        match act(
            &mut self.core.frames,
            &mut self.core.fuel,
            catalog,
            Phase::Pei,
        ) {
            Acted::Spent => Ok(Stepped::Ended(PeiEnd::Spent)),
            Acted::Silent => Ok(Stepped::Went(Event::quiet())),
            Acted::Prints(line) => {
                put_made(sink, line)?;
                Ok(Stepped::Went(Event::quiet()))
            }
            Acted::Own(action) => {
                let event = self.act_own(catalog, action, sink)?;
                Ok(Stepped::Went(event))
            }
        }
    }
}
