// A part starts, may start again, or is opened or closed.
ghost use Rattle.std.specs.Prelude.{◌≡◌, ◌≤◌, ◌<◌, ℕ, true, false, length};
ghost use Rattle.wait_index.specs.{PlaceFlags.count, PlaceFlags.flag, declared.verdict.Verdict.Verdict as OfVerdict};
ghost use Rattle.wait_index.specs.Places.{order_of, IsInOrder, AreJudged};
ghost use Rattle.wait_index.specs.Change.{IsChanged, started, again, gated};

use crate::places::Places;

impl Places {
    /// The part at a place has started: it waits no more, and its expression is asked no more.
    pub(crate) fn start(&mut self, place: usize)
        requires in_order { IsInOrder self.old }
        requires within { place < length (order_of self.old) }
        ensures in_order { IsInOrder self.new }
        ensures changed { IsChanged started place self.old self.new }
        ensures judged { (judge : ℕ → OfVerdict) → AreJudged judge self.old → AreJudged judge self.new }
        ensures asked { flag self.new.stale place ≡ false }
        ensures owed { count self.new.stale ≤ count self.old.stale }
    {
        let number = self.number_at(place);
        let mut standing = self.standing(number);
        standing.waits = false;
        standing.again = false;
        self.stand(place, number, standing);
        self.stale.remove(place);
    }

    /// The part at a place may start again.
    pub(crate) fn allow_again(&mut self, place: usize)
        requires in_order { IsInOrder self.old }
        requires within { place < length (order_of self.old) }
        ensures in_order { IsInOrder self.new }
        ensures changed { IsChanged again place self.old self.new }
        ensures judged { (judge : ℕ → OfVerdict) → AreJudged judge self.old → AreJudged judge self.new }
        ensures stale { self.new.stale ≡ self.old.stale }
    {
        let number = self.number_at(place);
        let mut standing = self.standing(number);
        standing.again = true;
        self.stand(place, number, standing);
    }

    /// The part at a place is opened or closed.
    pub(crate) fn gate(&mut self, place: usize, is_open: bool)
        requires in_order { IsInOrder self.old }
        requires within { place < length (order_of self.old) }
        ensures in_order { IsInOrder self.new }
        ensures changed { IsChanged (gated is_open) place self.old self.new }
        ensures judged { (judge : ℕ → OfVerdict) → AreJudged judge self.old → AreJudged judge self.new }
        ensures stale { self.new.stale ≡ self.old.stale }
    {
        let number = self.number_at(place);
        let mut standing = self.standing(number);
        standing.open = is_open;
        self.stand(place, number, standing);
    }
}
