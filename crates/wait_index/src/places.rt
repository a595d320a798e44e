// The parts of the known volumes, each with its place.
ghost use Rattle.std.specs.Prelude.{◌≡◌, ◌<◌, ◌+◌, [], ℕ, Some, IfOk, true, false, length, slice_get};
ghost use Rattle.wait_index.specs.{PlaceFlags.flag, PlaceFlags.count, declared.verdict.Verdict.Verdict as OfVerdict};
ghost use Rattle.wait_index.specs.Places.{order_of, standing_of, IsInOrder, IsKept, AreJudged};

use crate::PlaceSet;
use crate::standing::Standing;
use crate::verdict::Verdict;
use arrayvec::ArrayVec;
use mod_catalog::MOST_MODULES;
use pi_base::{OutOfMemory, Seq};
use std::alloc::Global;

/// The parts of the known volumes in their order, and the standing of each module's part.
#[derive(Drop)]
pub(crate) struct Places {
    pub(crate) order: ArrayVec<u32, MOST_MODULES>,
    /// By the numbers of the modules.
    pub(crate) standings: Seq<Standing>,
    /// Places of which the part may start.
    pub(crate) ready: PlaceSet,
    /// Places of parts that may start once all architectural protocols are installed.
    pub(crate) later: PlaceSet,
    /// Places of which the expression must be evaluated.
    pub(crate) stale: PlaceSet,
}

// A module of which nothing is known.
const UNKNOWN: Standing = Standing {
    place: None,
    waits: false,
    open: false,
    again: false,
    verdict: Verdict::No,
};

// Two empty sets.
fn two_sets(alloc: Global) -> Result<(PlaceSet, PlaceSet), OutOfMemory>
    ensures one { IfOk result (λ sets. (place : ℕ) → flag sets.0 place ≡ false) }
    ensures other { IfOk result (λ sets. (place : ℕ) → flag sets.1 place ≡ false) }
{
    let one = PlaceSet::new(alloc)?;
    match PlaceSet::new(alloc) {
        Ok(other) => Ok((one, other)),
        Err(OutOfMemory) => Err(OutOfMemory),
    }
}

impl Places {
    /// No places, for so many modules.
    pub(crate) fn new(alloc: Global, modules: usize) -> Result<Places, OutOfMemory>
        ensures in_order { IfOk result IsInOrder }
        ensures order { IfOk result (λ places. order_of places ≡ []) }
        ensures as_many { IfOk result (λ places. length places.standings ≡ modules) }
        ensures stale { IfOk result (λ places. count places.stale ≡ 0) }
    {
        let standings = match vec![in alloc; UNKNOWN; modules] {
            Ok(standings) => Seq::from_vec(standings),
            Err(_) => return Err(OutOfMemory),
        };
        let Ok(stale) = PlaceSet::new(alloc) else {
            return Err(OutOfMemory);
        };
        let Ok((ready, later)) = two_sets(alloc) else {
            return Err(OutOfMemory);
        };
        Ok(Places {
            order: ArrayVec::new(),
            standings,
            ready,
            later,
            stale,
        })
    }

    /// The standing of a module's part.
    pub(crate) fn standing(&self, number: u32) -> Standing
        ensures { result ≡ standing_of self.now number }
    {
        match self.standings.as_slice().get(number as usize) {
            Some(standing) => *standing,
            None => UNKNOWN,
        }
    }

    /// The module at a place.
    pub(crate) fn number_at(&self, place: usize) -> u32
        requires { place < length (order_of self.now) }
        ensures { slice_get (order_of self.now) place ≡ Some result }
    {
        self.order.as_slice()[place]
    }

    /// Sets the standing of the part at a place.
    pub(crate) fn stand(&mut self, place: usize, number: u32, standing: Standing)
        requires in_order { IsInOrder self.old }
        requires here { slice_get (order_of self.old) place ≡ Some number }
        requires placed { standing.place ≡ Some place }
        ensures in_order { IsInOrder self.new }
        ensures here { standing_of self.new number ≡ standing }
        ensures others { (other : ℕ) → ¬ (number ≡ other) → standing_of self.new other ≡ standing_of self.old other }
        ensures order { order_of self.new ≡ order_of self.old }
        ensures stale { self.new.stale ≡ self.old.stale }
        ensures as_many { length self.new.standings ≡ length self.old.standings }
    {
        self.standings.set(number as usize, standing);
        self.ready.put(place, standing.is_ready());
        self.later.put(place, standing.is_later());
    }

    /// Takes note of what the expression of the part at a place says.
    pub(crate) fn judge(&mut self, place: usize, verdict: Verdict)
        requires in_order { IsInOrder self.old }
        requires stale { flag self.old.stale place ≡ true }
        ensures in_order { IsInOrder self.new }
        ensures kept { IsKept self.old self.new }
        ensures counted { count self.new.stale + 1 ≡ count self.old.stale }
        ensures others { (other : ℕ) → ¬ (place ≡ other) → flag self.new.stale other ≡ flag self.old.stale other }
        ensures as_many { length self.new.standings ≡ length self.old.standings }
        ensures judged { (judge : ℕ → OfVerdict)
            → ((number : ℕ) → slice_get (order_of self.old) place ≡ Some number → verdict ≡ judge number)
            → AreJudged judge self.old → AreJudged judge self.new }
    {
        let number = self.number_at(place);
        let mut standing = self.standing(number);
        standing.verdict = verdict;
        self.stand(place, number, standing);
        self.stale.remove(place);
    }
}
