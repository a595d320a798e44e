// A set of places.
ghost use Rattle.std.specs.Prelude.{◌≡◌, ◌<◌, ◌≤◌, ◌+◌, ℕ, true, false, IfOk, IfNone, length, replicate};
ghost use Rattle.wait_index.specs.PlaceFlags.{flag, count, either, AreMarked, IsFirst};

use crate::search::{BLOCK, BLOCKS, MOST_PLACES, first_in, flag, is_empty};
use pi_base::{OutOfMemory, Seq};
use std::alloc::Global;
use std::marker::Model;

/// A set of places. A contract sees it as one flag for each place. Only `new` allocates memory.
#[derive(Drop)]
pub struct PlaceSet {
    flags: Seq<bool>,
    // A flag for each block of places. A set flag means that the block may have places of the set; a clear one means that it has none.
    blocks: Seq<bool>,
}

impl Model for PlaceSet {
    ghost use Rattle.std.specs.Prelude.{◌≡◌, List, Bool, length};
    ghost use Rattle.std.specs.Coded.{coded_list, coded_bool};
    ghost use Rattle.wait_index.specs.declared.search.TheConstants.{MOST_PLACES, BLOCKS};
    ghost use Rattle.wait_index.specs.PlaceFlags.{AreMarked};

    ghost Value = { List Bool };

    ghost coded = { coded_list coded_bool };

    ghost view = { λ s. s.flags };

    ghost invariant = { λ s. (length s.flags ≡ MOST_PLACES) × (length s.blocks ≡ BLOCKS) × AreMarked s.flags s.blocks };
}

// So many flags that are not set.
pub(crate) fn unset(alloc: Global, count: usize) -> Result<Seq<bool>, OutOfMemory>
    ensures { IfOk result (λ flags. flags ≡ replicate count false) }
{
    match vec![in alloc; false; count] {
        Ok(flags) => Ok(Seq::from_vec(flags)),
        Err(_) => Err(OutOfMemory),
    }
}

// A block of which no place is in the set is marked no more.
fn unmark(flags: &[bool], blocks: &mut Seq<bool>, block: usize)
    requires block { block < BLOCKS }
    requires blocks { length blocks.old ≡ BLOCKS }
    ensures marked { AreMarked flags.now blocks.old → AreMarked flags.now blocks.new }
    ensures as_many { length blocks.new ≡ length blocks.old }
{
    if is_empty(flags, block) {
        blocks.set(block, false);
    }
}

impl PlaceSet {
    /// The empty set.
    pub fn new(alloc: Global) -> Result<PlaceSet, OutOfMemory>
        ensures unset { IfOk result (λ set. (place : ℕ) → flag set place ≡ false) }
        ensures none { IfOk result (λ set. count set ≡ 0) }
    {
        let flags = unset(alloc, MOST_PLACES)?;
        let blocks = unset(alloc, BLOCKS)?;
        Ok(PlaceSet { flags, blocks })
    }

    /// Whether a place is in the set. Places from 4,096 on never are.
    pub fn contains(&self, place: usize) -> bool
        ensures { result ≡ flag self.now place }
    {
        flag(self.flags.as_slice(), place)
    }

    /// Adds a place to the set.
    pub fn insert(&mut self, place: usize)
        requires { place < MOST_PLACES }
        ensures here { flag self.new place ≡ true }
        ensures others { (other : ℕ) → ¬ (place ≡ other) → flag self.new other ≡ flag self.old other }
        ensures counted { count self.new ≤ count self.old + 1 }
    {
        self.flags.set(place, true);
        self.blocks.set(place / BLOCK, true);
    }

    /// Removes a place from the set.
    pub fn remove(&mut self, place: usize)
        requires { place < MOST_PLACES }
        ensures here { flag self.new place ≡ false }
        ensures others { (other : ℕ) → ¬ (place ≡ other) → flag self.new other ≡ flag self.old other }
        ensures counted { count self.new ≤ count self.old }
        ensures one_less { flag self.old place ≡ true → count self.new + 1 ≡ count self.old }
    {
        if !self.contains(place) {
            return;
        }
        self.flags.set(place, false);
        unmark(self.flags.as_slice(), &mut self.blocks, place / BLOCK);
    }

    /// Adds a place to the set or removes it, as `is_in` says.
    pub fn put(&mut self, place: usize, is_in: bool)
        requires { place < MOST_PLACES }
        ensures here { flag self.new place ≡ is_in }
        ensures others { (other : ℕ) → ¬ (place ≡ other) → flag self.new other ≡ flag self.old other }
    {
        if is_in {
            self.insert(place);
        } else {
            self.remove(place);
        }
    }

    /// The first place of the set from `from` on. None if there is none.
    pub fn first_from(&self, from: usize) -> Option<usize>
        ensures first { IsFirst (flag self.now) from result }
        ensures empty { from ≡ 0 → IfNone result (count self.now ≡ 0) }
    {
        self.first_of_two(self, false, from)
    }

    /// The first place from `from` on that is in this set, or in `other` if both are asked.
    pub fn first_of_two(&self, other: &PlaceSet, both: bool, from: usize) -> Option<usize>
        ensures { IsFirst (either both self.now other.now) from result }
    {
        first_in(
            self.flags.as_slice(),
            self.blocks.as_slice(),
            other.flags.as_slice(),
            other.blocks.as_slice(),
            both,
            from,
        )
    }
}
