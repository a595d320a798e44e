// A part comes.
ghost use Rattle.std.specs.Prelude.{◌≡◌, ◌≤◌, ◌<◌, ◌+◌, ◌++◌, ◌∷◌, [], ℕ, false, length};
ghost use Rattle.wait_index.specs.{PlaceFlags.count, declared.verdict.Verdict.Verdict as OfVerdict, Discovery.new_standing};
ghost use Rattle.mod_catalog.specs.{declared.limits.TheConstants.MOST_MODULES, Parts.has_number};
ghost use Rattle.wait_index.specs.Places.{order_of, standing_of, IsInOrder, AreJudged};

use crate::places::Places;
use crate::standing::Standing;
use crate::verdict::Verdict;

impl Places {
    /// One part more, after the others: it waits, and its expression must be evaluated.
    pub(crate) fn add(&mut self, number: u32, is_open: bool)
        requires in_order { IsInOrder self.old }
        requires is_new { has_number (order_of self.old) number ≡ false }
        requires within { number < length self.old.standings }
        requires few { length self.old.standings ≤ MOST_MODULES }
        ensures in_order { IsInOrder self.new }
        ensures order { order_of self.new ≡ order_of self.old ++ number ∷ [] }
        ensures here { standing_of self.new number ≡ new_standing (length (order_of self.old)) is_open }
        ensures others { (other : ℕ) → ¬ (number ≡ other) → standing_of self.new other ≡ standing_of self.old other }
        ensures judged { (judge : ℕ → OfVerdict) → AreJudged judge self.old → AreJudged judge self.new }
        ensures owed { count self.new.stale ≤ count self.old.stale + 1 }
        ensures as_many { length self.new.standings ≡ length self.old.standings }
    {
        let place = self.order.len();
        self.order.push(number);
        let standing = Standing {
            place: Some(place as u32),
            waits: true,
            open: is_open,
            again: false,
            verdict: Verdict::No,
        };
        self.standings.set(number as usize, standing);
        self.stale.insert(place);
    }
}
