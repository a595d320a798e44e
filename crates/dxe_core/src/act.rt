//! The next action of the top frame.
ghost use Rattle.std.specs.Prelude.{◌≡◌, ◌<◌, ◌+◌, ◌-◌, ◌^◌, ℕ, OnOk};
ghost use Rattle.boot_io.specs.Halted.{HaltsAfter};
ghost use Rattle.boot_model.specs.DxeMachine.{DxeMachine};
ghost use Rattle.mod_catalog.specs.WellFormed.{IsWellFormed};
ghost use Rattle.dxe_core.specs.{Services.AreCounted, Services.AreServicesFor, Standing.IsFor, Standing.StandsFor};
ghost use Rattle.dxe_core.specs.Parts.{ActsOwn, KeepsFor, RunsScript, StepsScript, TakesOwn};

use crate::action::take_own;
use crate::dxe::Dxe;
use crate::event::Event;
use crate::lines::put_reply;
use crate::reply::Reply;
use crate::stepped::Stepped;
use act_code::Action;
use boot_io::{Halt, Sink};
use boot_model::{DxeEnd, Line};
use boot_trace::put_made;
use mod_catalog::Catalog;
use phase_parts::{Acted, act, effects_are_alike};
use pi_base::Phase;
use store_model::PeiStore;

impl Dxe {
    // The top frame takes an action of DXE's own, which was counted.
    fn act_own<M: PeiStore, S: Sink>(
        &mut self,
        store: &M,
        catalog: &Catalog,
        action: &Action,
        sink: &mut S,
    ) -> Result<Event, Halt>
        requires catalog { IsWellFormed catalog.now }
        requires made { AreServicesFor catalog.now self.old.services }
        requires counted { (n : ℕ) × (n < 2 ^ 32 - 1) × (n + 1 ≡ self.old.fuel.taken) × AreCounted n self.old.services }
        requires state { (m : DxeMachine) × StandsFor M.stands_for store.now catalog.now self.old m × TakesOwn action.now m }
        ensures row { ActsOwn M.stands_for store.now catalog.now action.now (record {
          before = self.old;
          later = self.new;
          old = S.text sink.old;
          new = S.text sink.new;
        }) result }
        ensures made { OnOk result (KeepsFor catalog.now self.old self.new) }
        ensures faults { HaltsAfter result (S.faults sink.old) (S.faults sink.new) }
    {
        effects_are_alike();
        let Some(frame) = self.frames.top() else {
            unreachable!()
        };
        let Reply {
            name,
            status,
            extra,
            writes,
            sweep,
            event,
        } = take_own(&mut self.services, store, catalog, frame, action)?;
        self.frames.answer(&writes, status, sweep);
        let call = Line::Call {
            name,
            status,
            extra,
        };
        put_reply(sink, call, self.services.order().newest(event.discovered))?;
        Ok(event)
    }

    // The top frame takes its next action, unless the fuel is spent.
    pub(crate) fn act<M: PeiStore, S: Sink>(
        &mut self,
        store: &M,
        catalog: &Catalog,
        sink: &mut S,
    ) -> Result<Stepped, Halt>
        requires catalog { IsWellFormed catalog.now }
        requires made { (fuel : ℕ) × IsFor catalog.now fuel self.old }
        requires state { (m : DxeMachine) × StandsFor M.stands_for store.now catalog.now self.old m × RunsScript m }
        ensures row { StepsScript M.stands_for store.now catalog.now (record {
          before = self.old;
          later = self.new;
          old = S.text sink.old;
          new = S.text sink.new;
        }) result }
        ensures made { OnOk result ((fuel : ℕ) → IsFor catalog.now fuel self.old → IsFor catalog.now fuel self.new) }
        ensures faults { HaltsAfter result (S.faults sink.old) (S.faults sink.new) }
    {
        effects_are_alike();
        match act(&mut self.frames, &mut self.fuel, catalog, Phase::Dxe) {
            Acted::Spent => Ok(Stepped::Ended(DxeEnd::Spent)),
            Acted::Silent => Ok(Stepped::Went(Event::quiet())),
            Acted::Prints(line) => {
                put_made(sink, line)?;
                Ok(Stepped::Went(Event::quiet()))
            }
            Acted::Own(action) => {
                let event = self.act_own(store, catalog, action, sink)?;
                Ok(Stepped::Went(event))
            }
        }
    }
}
