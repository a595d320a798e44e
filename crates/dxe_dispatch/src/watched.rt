//! DXE to its end, and who is told of it.
ghost use Rattle.std.specs.Prelude.{◌≡◌, ◌≤◌, ◌<◌, ◌^◌, ℕ, [], OnOk, length};
ghost use Rattle.boot_io.specs.Halted.{HaltsAfter};
ghost use Rattle.boot_model.specs.DxeRun.{dxe_bound};
ghost use Rattle.mod_catalog.specs.{WellFormed.IsWellFormed, declared.limits.TheConstants.MOST_MODULES};
ghost use Rattle.dxe_core.specs.Standing.{IsFor};
ghost use Rattle.dxe_dispatch.specs.{Queue.IsNewQueue, Queue.IsQueueFor, Choices.EvaluatesFewByChoice, Ends.IsAtOpening};
ghost use Rattle.dxe_dispatch.specs.Watched.{RunsWatched};

use crate::answer::Turn;
use crate::passes::Agenda;
use crate::turns::turn_by;
use crate::watch::DxeWatch;
use boot_io::{Halt, Sink};
use boot_laws::{
    Choice, Reached, discovered_order_has_each_once, dxe_chooses_by_groups, dxe_goes_on, dxe_opens,
    groups_are_aimed, unrequested_drivers_wait,
};
use boot_model::{DxeEnd, MOST_FRAMES};
use depex_code::Steps;
use dxe_core::{Dxe, put_volumes};
use mod_catalog::Catalog;
use std::sync::ledger::Ledger;
use store_model::PeiStore;

/// How many steps a run of DXE has at most.
pub fn bound(catalog: &Catalog, fuel: u32) -> u64
    requires { length catalog.now.modules ≤ MOST_MODULES }
    ensures { result ≡ dxe_bound catalog.now fuel }
{
    2 * u64::from(fuel) + MOST_FRAMES as u64 + catalog.modules.len() as u64 + 1
}

/// DXE from the opening to its end, where a choice may name the driver that starts, or to the start of one that it does not let: the a priori drivers of the volumes that were discovered are scheduled, the lines of these volumes are put, and then a step of the machine at a time, up to the stop. `dxe` is the core at its opening, `agenda` is new, and `in_pei` is how many starts there were in PEI. The watcher is told of the opening, of each step and of what the run reaches.
/// What it leaves is a run of the machine whose choices are these; behind its end the core beside its store, and the queue, are those of the last machine. Before a start that is not let the core is that of the machine there, and the driver has left the queue. What the dispatcher keeps says what the choice was told last, or would be at the end. No more expressions are evaluated than the drivers and the protocols of that run let. No more interfaces are left than a `u32` counts, if no more actions were taken before, and no more drivers have left the queue.
pub fn watch_dxe<M: PeiStore, S: Sink, C: Choice<S>, W: DxeWatch, L: Ledger>(
    dxe: &mut Dxe,
    store: &M,
    agenda: &mut Agenda,
    choice: &C,
    watch: &mut W,
    in_pei: u32,
    catalog: &Catalog,
    sink: &mut S,
    steps: &mut Steps<L>,
) -> Result<Reached<DxeEnd>, Halt>
    requires catalog { IsWellFormed catalog.now }
    requires made { (fuel : ℕ) × IsFor catalog.now fuel dxe.old }
    requires new { IsNewQueue catalog.now agenda.old.queue }
    requires queue { IsQueueFor catalog.now agenda.old.queue }
    requires passes { agenda.old.passes ≡ record { wanted = (C.rules choice.now).wants_turn; drivers = []; left = [] } }
    requires opening { IsAtOpening M.stands_for store.now catalog.now dxe.old }
    requires watch { W.is_new watch.old }
    ensures row { RunsWatched (W.knows_all watch.new) (record {
      by = record { rules = C.rules choice.now; text = S.text; faults = S.faults };
      in_pei = in_pei;
    })
        M.stands_for store.now catalog.now (record {
          core = dxe.old;
          sink = sink.old;
          later = dxe.new;
          shown = sink.new;
        }) agenda.new result }
    ensures few { dxe.old.fuel.taken < 2 ^ 32 → OnOk result (length dxe.new.services.handles.interfaces < 2 ^ 32) }
    ensures few_starts { OnOk result (agenda.new.queue.left < 2 ^ 32) }
    ensures faults { HaltsAfter result (S.faults sink.old) (S.faults sink.new) }
    ensures few_steps { EvaluatesFewByChoice (record {
      by = record { rules = C.rules choice.now; text = S.text; faults = S.faults };
      in_pei = in_pei;
    })
        M.stands_for store.now catalog.now dxe.old sink.old steps.old steps.new }
{
    dxe_opens();
    dxe_goes_on();
    dxe_chooses_by_groups();
    groups_are_aimed();
    unrequested_drivers_wait();
    discovered_order_has_each_once();
    let volumes = dxe.order().volumes();
    agenda.queue.discover(catalog, dxe.order(), volumes)?;
    agenda.passes.discover(catalog, volumes)?;
    put_volumes(sink, volumes)?;
    watch.begins(dxe, store, &agenda.queue, catalog);
    'turns: for _ in 0..bound(catalog, dxe.fuel()) {
        match turn_by(dxe, store, agenda, choice, in_pei, catalog, sink, steps)? {
            Turn::Took(step) => watch.saw(&step, dxe, store, &agenda.queue, catalog),
            Turn::Reached(reached) => {
                watch.ends(&reached, dxe, store, &agenda.queue, catalog);
                return Ok(reached);
            }
        }
    }
    unreachable!()
}
