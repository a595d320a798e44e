// What the expression of a part says over the GUIDs that are installed.
ghost use Rattle.std.specs.Prelude.{◌≡◌, ◌≤◌, ◌+◌};
ghost use Rattle.boot_model.specs.Eligible.{depex_holds};
ghost use Rattle.wait_index.specs.{Verdict.expression_verdict, Verdict.verdict_of, Installed.is_there};
ghost use Rattle.mod_catalog.specs.WellFormed.{IsShortExpression, AreShort};

use crate::installed::Installed;
use depex_code::Steps;
use mod_catalog::{Catalog, PartExpr};
use phase_parts::{depex_holds, part_of};
use pi_base::Phase;
use std::sync::ledger::Ledger;

/// Whether a part may start: no, yes, or once all architectural protocols are installed.
#[derive(Clone, Copy)]
pub enum Verdict {
    No,
    Yes,
    WithAll,
}

// The verdict of an expression. Without one a PEIM may start, and a driver may once all architectural protocols are installed.
fn expression_verdict<L: Ledger>(
    phase: Phase,
    expr: &PartExpr,
    installed: &Installed,
    steps: &mut Steps<L>,
) -> Verdict
    requires short { IsShortExpression expr.now }
    ensures verdict { result ≡ expression_verdict phase (is_there installed.now) expr.now }
    ensures counted { steps.old ≤ steps.new }
    ensures few_steps { steps.new ≤ steps.old + 1 }
{
    match expr {
        PartExpr::Absent => match phase {
            Phase::Pei => Verdict::Yes,
            Phase::Dxe => Verdict::WithAll,
        },
        PartExpr::Malformed(_) => Verdict::No,
        PartExpr::Held(expression) => {
            if depex_holds(expression, installed, steps) {
                Verdict::Yes
            } else {
                Verdict::No
            }
        }
    }
}

/// What the part of a module says now: a PEIM with a rank may start whatever its expression says. At most one expression is evaluated.
pub(crate) fn verdict_of<L: Ledger>(
    phase: Phase,
    catalog: &Catalog,
    number: u32,
    installed: &Installed,
    steps: &mut Steps<L>,
) -> Verdict
    requires short { AreShort phase catalog.now }
    ensures verdict { result ≡ verdict_of phase catalog.now (is_there installed.now) number }
    ensures counted { steps.old ≤ steps.new }
    ensures few_steps { steps.new ≤ steps.old + 1 }
{
    match part_of(catalog, phase, number) {
        Some(part) => {
            if phase == Phase::Pei && part.rank.is_some() {
                return Verdict::Yes;
            }
            expression_verdict(phase, &part.expr, installed, steps)
        }
        None => Verdict::No,
    }
}
