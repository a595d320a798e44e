// Expressions are evaluated if their value may have changed.
ghost use Rattle.std.specs.Prelude.{◌≡◌, ◌≤◌, ◌+◌, length};
ghost use Rattle.wait_index.specs.{PlaceFlags.count, Installed.is_there, Verdict.verdict_of};
ghost use Rattle.wait_index.specs.Places.{IsInOrder, IsKept, AreJudged};
ghost use Rattle.mod_catalog.specs.WellFormed.{AreShort};

use crate::installed::Installed;
use crate::places::Places;
use crate::verdict::verdict_of;
use depex_code::Steps;
use mod_catalog::Catalog;
use pi_base::Phase;
use std::sync::ledger::Ledger;

/// Evaluates the expression of each stale place, once.
pub(crate) fn settle<L: Ledger>(
    places: &mut Places,
    phase: Phase,
    catalog: &Catalog,
    installed: &Installed,
    steps: &mut Steps<L>,
)
    requires short { AreShort phase catalog.now }
    requires in_order { IsInOrder places.old }
    requires judged { AreJudged (verdict_of phase catalog.now (is_there installed.now)) places.old }
    ensures in_order { IsInOrder places.new }
    ensures judged { AreJudged (verdict_of phase catalog.now (is_there installed.now)) places.new }
    ensures kept { IsKept places.old places.new }
    ensures as_many { length places.new.standings ≡ length places.old.standings }
    ensures settled { count places.new.stale ≡ 0 }
    ensures counted { steps.old ≤ steps.new }
    ensures few_steps { steps.new ≤ steps.old + count places.old.stale }
{
    let mut from = 0;
    'stale: while let Some(place) = places.stale.first_from(from) {
        let number = places.number_at(place);
        let verdict = verdict_of(phase, catalog, number, installed, steps);
        places.judge(place, verdict);
        from = place;
    }
}
