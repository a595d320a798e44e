//! What an expression asks for.
ghost use Rattle.std.specs.Prelude.{◌≡◌, IfOk};
ghost use Rattle.boot_reasons.specs.Asked.{asked, asked_without};

use crate::noted::Noted;
use boot_model::ARCHITECTURAL;
use depex_code::Depex;
use mod_catalog::PartExpr;
use pi_base::{Guid, OutOfMemory, Phase, Seq};
use std::alloc::Global;

/// What a part without an expression asks for.
pub(crate) fn asked_without(phase: Phase) -> &'static [Guid]
    ensures { result.now ≡ asked_without phase }
{
    match phase {
        Phase::Pei => &[],
        Phase::Dxe => &ARCHITECTURAL,
    }
}

/// The GUIDs that the expression of a part asks for, each once, in the order in which it first mentions them (PI 1.8, volumes 1 and 2, "Dependency Expressions").
/// A driver without an expression asks for the architectural protocols; one that names another driver in BEFORE or AFTER asks for none.
#[tactic(auto, using(crate::proofs::OnceEach::noted_once, crate::proofs::OnceEach::code_once))]
pub fn asked(alloc: Global, phase: Phase, expr: &PartExpr) -> Result<Seq<Guid>, OutOfMemory>
    ensures { IfOk result (λ guids. guids ≡ asked phase expr.now) }
{
    let mut noted = Noted::new(alloc);
    match expr {
        PartExpr::Absent => noted.note_all(asked_without(phase))?,
        PartExpr::Held(Depex::Expr { tree, .. }) => noted.note_code(tree.code())?,
        _ => {}
    }
    Ok(noted.guids)
}
