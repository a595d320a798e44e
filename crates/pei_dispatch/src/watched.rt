//! PEI to its end, and who is told of it.
ghost use Rattle.std.specs.Prelude.{◌≡◌, ◌≤◌, ◌+◌, ◌*◌, ℕ, length};
ghost use Rattle.boot_io.specs.Halted.{HaltsAfter};
ghost use Rattle.boot_model.specs.PeiRun.{pei_opening, pei_bound};
ghost use Rattle.mod_catalog.specs.{WellFormed.IsWellFormed, declared.limits.TheConstants.MOST_MODULES};
ghost use Rattle.store_model.specs.StoreState.{Board};
ghost use Rattle.pei_dispatch.specs.{Queue.IsNewQueue, Choices.EvaluatesFewByChoice, Ends.IsWantOfStore, Watched.RunsWatched};
ghost use Rattle.pei_core.specs.Standing.{StandsFor, IsFor};

use crate::answer::Turn;
use crate::turns::turn;
use crate::watch::PeiWatch;
use crate::{PeiQueue, alike_views_are_shown};
use boot_io::{Halt, Sink};
use boot_laws::{Choice, Reached, cursor_aims, pei_opens, pei_starts_freely};
use boot_model::{MOST_FRAMES, PeiEnd};
use depex_code::Steps;
use mod_catalog::Catalog;
use pei_core::{Pei, put_reports};
use std::sync::ledger::Ledger;
use store_model::PeiStore;

/// How many steps a run of PEI has at most.
pub fn bound(catalog: &Catalog, fuel: u32) -> u64
    requires { length catalog.now.modules ≤ MOST_MODULES }
    ensures { result ≡ pei_bound catalog.now fuel }
{
    2 * u64::from(fuel) + MOST_FRAMES as u64 + 2 * catalog.modules.len() as u64 + 2
}

/// PEI from the opening to its end, where a choice says which PEIM starts, or to the start of one that it does not let: the lines of the opening, then a step of the machine at a time, up to the stop. `queue` is the one of which no volume is reported yet. The watcher is told of the opening, of each step and of what the run reaches.
/// What it leaves is a run of the machine whose choices are these. No more expressions are evaluated than the volumes and the events of that run let. Want of memory is answered only where the store takes it.
pub fn watch_pei<M: PeiStore + Drop, S: Sink, C: Choice<S>, W: PeiWatch, L: Ledger>(
    pei: &mut Pei<M>,
    queue: &mut PeiQueue,
    choice: &C,
    watch: &mut W,
    catalog: &Catalog,
    sink: &mut S,
    steps: &mut Steps<L>,
) -> Result<Reached<PeiEnd>, Halt>
    requires catalog { IsWellFormed catalog.now }
    requires made { (fuel : ℕ) × IsFor catalog.now fuel pei.old }
    requires queue { IsNewQueue catalog.now queue.old }
    requires opening { (board : Board) × StandsFor M.stands_for pei.old (pei_opening board catalog.now) }
    requires watch { W.is_new watch.old }
    ensures row { RunsWatched (W.knows_all watch.new) (record { rules = C.rules choice.now; text = S.text; faults = S.faults })
        M.stands_for catalog.now sink.old (record { pei = pei.old; later = pei.new; texts = record { old = S.text sink.old; new = S.text sink.new } }) result }
    ensures memory { IsWantOfStore M.TAKES_MEMORY result }
    ensures faults { HaltsAfter result (S.faults sink.old) (S.faults sink.new) }
    ensures few_steps { EvaluatesFewByChoice (record { rules = C.rules choice.now; text = S.text; faults = S.faults }) M.stands_for catalog.now
        pei.old sink.old steps.old steps.new }
{
    pei_opens();
    pei_starts_freely();
    cursor_aims();
    alike_views_are_shown();
    queue.report(catalog, pei.reported());
    put_reports(sink, pei.reported())?;
    watch.begins(pei, catalog);
    'turns: for _ in 0..bound(catalog, pei.fuel()) {
        match turn(pei, queue, choice, catalog, sink, steps)? {
            Turn::Took(step) => {
                watch.saw(&step, pei, catalog);
                drop(step);
            }
            Turn::Reached(reached) => {
                watch.ends(&reached, pei, queue, catalog);
                return Ok(reached);
            }
        }
    }
    unreachable!()
}
