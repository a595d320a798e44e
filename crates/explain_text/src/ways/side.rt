// The ways in which a part of a tree holds, and those in which it does not, whatever its own parts were.
ghost use Rattle.std.specs.Prelude.{◌≡◌, IfOk};
ghost use Rattle.explain_text.specs.Sides.{and_side, fixed_side, guid_side, not_side, or_side};
ghost use Rattle.explain_text.specs.Ways.{says};

use crate::ways::cheapest::Ways;
use crate::ways::literal::Literal;
use depex_code::GuidSet;
use pi_base::{Guid, OutOfMemory, Seq};
use std::alloc::Global;

/// A part of a tree.
#[derive(Drop)]
pub(crate) struct Side {
    /// The ways in which it holds.
    pub(crate) holds: Ways,
    /// The ways in which it does not.
    pub(crate) fails: Ways,
}

// A way that says one thing.
fn saying(alloc: Global, guid: &Guid, there: bool, is_so: bool) -> Result<Ways, OutOfMemory>
    ensures { IfOk result (λ ways. ways ≡ says guid.now there is_so) }
{
    let mut literals = Seq::new(alloc);
    literals.push(Literal {
        guid: *guid,
        there,
        is_so,
    })?;
    Ways::one(literals)
}

impl Side {
    /// One that holds, or does not, whatever is installed.
    pub(crate) fn fixed(alloc: Global, holds: bool) -> Result<Side, OutOfMemory>
        ensures { IfOk result (λ side. side ≡ fixed_side holds) }
    {
        let always = Ways::one(Seq::new(alloc))?;
        let never = Ways::new(alloc);
        if holds {
            Ok(Side {
                holds: always,
                fails: never,
            })
        } else {
            Ok(Side {
                holds: never,
                fails: always,
            })
        }
    }

    /// A GUID.
    pub(crate) fn guid<G: GuidSet>(alloc: Global, set: &G, guid: &Guid) -> Result<Side, OutOfMemory>
        requires order { G.in_order set.now }
        ensures { IfOk result (λ side. side ≡ guid_side (G.has_guid set.now) guid.now) }
    {
        let there = set.has(guid);
        Ok(Side {
            holds: saying(alloc, guid, true, there)?,
            fails: saying(alloc, guid, false, !there)?,
        })
    }

    /// NOT over a part.
    pub(crate) fn not(self) -> Side
        ensures { result ≡ not_side self }
    {
        Side {
            holds: self.fails,
            fails: self.holds,
        }
    }

    /// AND over two parts.
    pub(crate) fn and(&self, second: &Side) -> Result<Side, OutOfMemory>
        ensures { IfOk result (λ side. side ≡ and_side self.now second.now) }
    {
        Ok(Side {
            holds: Ways::both(&self.holds, &second.holds)?,
            fails: Ways::either(&self.fails, &second.fails)?,
        })
    }

    /// OR over two parts.
    pub(crate) fn or(&self, second: &Side) -> Result<Side, OutOfMemory>
        ensures { IfOk result (λ side. side ≡ or_side self.now second.now) }
    {
        Ok(Side {
            holds: Ways::either(&self.holds, &second.holds)?,
            fails: Ways::both(&self.fails, &second.fails)?,
        })
    }
}
