// The change that would make the expression of a part hold.
ghost use Rattle.std.specs.Prelude.{◌≡◌, IfOk, Some, option_map};
ghost use Rattle.explain_text.specs.Change.{all_there, change_by, change_for, wanted, wanted_without};
ghost use Rattle.explain_text.specs.Ways.{first_way};

use crate::ways::cheapest::Ways;
use crate::ways::literal::{Literal, same_truth};
use crate::ways::sides::side_of;
use boot_model::ARCHITECTURAL;
use depex_code::{Depex, GuidSet};
use mod_catalog::PartExpr;
use pi_base::{Guid, OutOfMemory, Phase, Seq};
use std::alloc::Global;

/// The GUIDs whose coming and going would make a dependency expression hold. Both are empty where it holds.
#[derive(Drop)]
pub struct Change {
    /// Those that have to come, each once.
    pub would: Seq<Guid>,
    /// Those that have to go, each once.
    pub unless: Seq<Guid>,
}

// The GUIDs that literals want there, or gone, and that are not so.
fn wanted(alloc: Global, literals: &[Literal], there: bool) -> Result<Seq<Guid>, OutOfMemory>
    ensures { IfOk result (λ guids. guids ≡ wanted there literals.now) }
{
    let mut guids = Seq::new(alloc);
    let mut rest = literals;
    'literals: while let [literal, after @ ..] = rest {
        if !literal.is_so && same_truth(there, literal.there) {
            guids.push(literal.guid)?;
        }
        rest = after;
    }
    Ok(guids)
}

// The change that literals want.
fn change_by(alloc: Global, literals: &[Literal]) -> Result<Change, OutOfMemory>
    ensures { IfOk result (λ change. change ≡ change_by literals.now) }
{
    Ok(Change {
        would: wanted(alloc, literals, true)?,
        unless: wanted(alloc, literals, false)?,
    })
}

// The change by the first of some ways.
fn change_in(alloc: Global, ways: &Ways) -> Result<Option<Change>, OutOfMemory>
    ensures { IfOk result (λ change. change ≡ option_map change_by (first_way ways.now)) }
{
    match ways.as_slice() {
        [way, ..] => Ok(Some(change_by(alloc, way.literals())?)),
        [] => Ok(None),
    }
}

// Literals that say that these GUIDs are there.
fn all_there<G: GuidSet>(
    alloc: Global,
    set: &G,
    guids: &[Guid],
) -> Result<Seq<Literal>, OutOfMemory>
    requires order { G.in_order set.now }
    ensures { IfOk result (λ literals. literals ≡ all_there (G.has_guid set.now) guids.now) }
{
    let mut literals = Seq::new(alloc);
    let mut rest = guids;
    'guids: while let [guid, after @ ..] = rest {
        literals.push(Literal {
            guid: *guid,
            there: true,
            is_so: set.has(guid),
        })?;
        rest = after;
    }
    Ok(literals)
}

// What a part without an expression wants there.
fn wanted_without(phase: Phase) -> &'static [Guid]
    ensures { result.now ≡ wanted_without phase }
{
    match phase {
        Phase::Pei => &[],
        Phase::Dxe => &ARCHITECTURAL,
    }
}

// The change for a part without an expression.
fn change_without<G: GuidSet>(
    alloc: Global,
    set: &G,
    phase: Phase,
) -> Result<Option<Change>, OutOfMemory>
    requires order { G.in_order set.now }
    ensures { IfOk result (λ change. change ≡ Some (change_by (all_there (G.has_guid set.now) (wanted_without phase)))) }
{
    let literals = all_there(alloc, set, wanted_without(phase))?;
    Ok(Some(change_by(alloc, literals.as_slice())?))
}

/// The change of the fewest GUIDs that would make the expression of a part hold over a set; of several that of the leftmost way.
/// At each AND and OR sixteen ways are kept, those that change the fewest. None where no way is left: the expression is FALSE, contradicts itself, cannot be read, or names another driver in BEFORE or AFTER.
/// A driver without an expression needs the architectural protocols (PI 1.8, volume 2).
pub fn change_for<G: GuidSet>(
    alloc: Global,
    set: &G,
    phase: Phase,
    expr: &PartExpr,
) -> Result<Option<Change>, OutOfMemory>
    requires order { G.in_order set.now }
    ensures { IfOk result (λ change. change ≡ change_for (G.has_guid set.now) phase expr.now) }
{
    match expr {
        PartExpr::Absent => change_without(alloc, set, phase),
        PartExpr::Held(Depex::Expr { tree, .. }) => {
            let side = side_of(alloc, set, tree)?;
            change_in(alloc, &side.holds)
        }
        _ => Ok(None),
    }
}
