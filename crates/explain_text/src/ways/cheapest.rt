// The ways that change the fewest GUIDs.
ghost use Rattle.std.specs.Prelude.{◌≡◌, ◌≤◌, [], ◌∷◌, ◌++◌, length, take, IfOk, OnOk};
ghost use Rattle.explain_text.specs.{KeptWays.kept, KeptWays.place_of, declared.ways.cheapest.TheConstants.MOST_WAYS as SIXTEEN};
ghost use Rattle.explain_text.specs.Ways.{cost, crossed, fewest, joined_with, placed};

use crate::ways::literal::Literal;
use crate::ways::way::{Way, joined};
use pi_base::{OutOfMemory, Seq};
use std::alloc::Global;
use std::marker::Model;

/// So many ways of a part are kept: an expression of n parts may have 2^n (own).
pub(crate) const MOST_WAYS: usize = 16;

/// Ways, those first that change the fewest GUIDs.
#[derive(Drop)]
pub(crate) struct Ways {
    items: Vec<Way>,
}

impl Model for Ways {
    ghost use Rattle.std.specs.Prelude.{List};
    ghost use Rattle.explain_text.specs.declared.ways.literal.Literal.{Literal};

    ghost Value = { List (List Literal) };

    ghost view = { λ w. w.items.items };
}

// The place of a way that changes so many: behind those that change no more.
fn place_of(ways: &[Way], cost: usize) -> usize
    ensures place { result ≡ place_of cost ways.now }
    ensures within { result ≤ length ways.now }
{
    let mut at = 0;
    let mut rest = ways;
    'ways: while let [other, after @ ..] = rest {
        if cost < other.cost() {
            return at;
        }
        at += 1;
        rest = after;
    }
    at
}

impl Ways {
    /// None.
    pub(crate) fn new(alloc: Global) -> Ways
        ensures { result ≡ [] }
    {
        Ways {
            items: Vec::new(alloc),
        }
    }

    /// One alone.
    pub(crate) fn one(literals: Seq<Literal>) -> Result<Ways, OutOfMemory>
        ensures { IfOk result (λ ways. ways ≡ literals ∷ []) }
    {
        let mut items = Vec::new(literals.alloc());
        match items.push(Way::new(literals)) {
            Ok(()) => Ok(Ways { items }),
            Err(_) => Err(OutOfMemory),
        }
    }

    /// The ways.
    pub(crate) fn as_slice(&self) -> &[Way]
        ensures { result.now ≡ self.now }
    {
        self.items.as_slice()
    }

    // One more at its place; of many the last goes.
    fn put(&mut self, way: Way) -> Result<(), OutOfMemory>
        ensures { OnOk result (self.new ≡ take SIXTEEN (placed way self.old)) }
    {
        let at = place_of(self.items.as_slice(), way.cost());
        match self.items.insert(at, way) {
            Ok(()) => {}
            Err(_) => return Err(OutOfMemory),
        }
        self.items.truncate(MOST_WAYS);
        Ok(())
    }

    // These too.
    fn put_all(&mut self, ways: &[Way]) -> Result<(), OutOfMemory>
        ensures { OnOk result (self.new ≡ kept self.old ways.now) }
    {
        let mut rest = ways;
        'ways: while let [way, after @ ..] = rest {
            self.put(way.again()?)?;
            rest = after;
        }
        Ok(())
    }

    // A way together with each of others.
    fn put_joined(&mut self, first: &Way, seconds: &[Way]) -> Result<(), OutOfMemory>
        ensures { OnOk result (self.new ≡ kept self.old (joined_with seconds.now first.now)) }
    {
        let mut rest = seconds;
        'seconds: while let [second, after @ ..] = rest {
            if let Some(way) = joined(first, second)? {
                self.put(way)?;
            }
            rest = after;
        }
        Ok(())
    }

    /// Those of either side.
    pub(crate) fn either(first: &Ways, second: &Ways) -> Result<Ways, OutOfMemory>
        ensures { IfOk result (λ ways. ways ≡ fewest (first.now ++ second.now)) }
    {
        let mut ways = Ways::new(*first.items.allocator());
        ways.put_all(first.as_slice())?;
        ways.put_all(second.as_slice())?;
        Ok(ways)
    }

    /// Each of the one side with each of the other.
    pub(crate) fn both(first: &Ways, second: &Ways) -> Result<Ways, OutOfMemory>
        ensures { IfOk result (λ ways. ways ≡ fewest (crossed first.now second.now)) }
    {
        let mut ways = Ways::new(*first.items.allocator());
        let mut rest = first.as_slice();
        'firsts: while let [way, after @ ..] = rest {
            ways.put_joined(way, second.as_slice())?;
            rest = after;
        }
        Ok(ways)
    }
}
