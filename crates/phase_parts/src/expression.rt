//! Whether an expression holds.
ghost use Rattle.std.specs.Prelude.{◌≡◌, ◌≤◌, ◌+◌};
ghost use Rattle.mod_catalog.specs.WellFormed.{IsShort};
ghost use Rattle.boot_model.specs.Eligible.{depex_holds};

use depex_code::{Depex, GuidSet, Steps};
use std::sync::ledger::Ledger;

/// Whether an expression holds over a set of GUIDs (PI 1.8, volumes 1 and 2, "Dependency Expressions"); BEFORE and AFTER never hold. At most one tree is
/// evaluated.
pub fn depex_holds<G: GuidSet, L: Ledger>(expression: &Depex, set: &G, steps: &mut Steps<L>) -> bool
    requires order { G.in_order set.now }
    requires short { IsShort expression.now }
    ensures holds { result ≡ depex_holds (G.has_guid set.now) expression.now }
    ensures counted { steps.old ≤ steps.new }
    ensures few_steps { steps.new ≤ steps.old + 1 }
{
    match expression {
        Depex::Before(_) => false,
        Depex::After(_) => false,
        Depex::Expr { tree, .. } => tree.holds(set, steps),
    }
}
