// The text of a part's expression.
ghost use Rattle.std.specs.Prelude.{◌≡◌, IfOk};
ghost use Rattle.asm_text.specs.ExpressionText.{expression_text};
ghost use Rattle.explain_text.specs.Lines.{expr_text, malformed_text};

use asm_text::print_depex;
use boot_trace::decimal_word;
use depex_code::Depex;
use mod_catalog::PartExpr;
use pi_base::{OutOfMemory, Seq};
use std::alloc::Global;

// A text of its own.
fn text_of(alloc: Global, text: &[u8]) -> Result<Seq<u8>, OutOfMemory>
    ensures { IfOk result (λ own. own ≡ text.now) }
{
    let mut own = Seq::new(alloc);
    own.append(text)?;
    Ok(own)
}

// That of an expression, without the line feed.
fn depex_text(alloc: Global, depex: &Depex) -> Result<Seq<u8>, OutOfMemory>
    ensures { IfOk result (λ text. text ≡ expression_text depex.now) }
{
    let mut text = print_depex(alloc, depex)?;
    let len = text.len();
    text.truncate(len.saturating_sub(1));
    Ok(text)
}

// That of an expression that can not be read.
fn malformed_text(alloc: Global, at: u32) -> Result<Seq<u8>, OutOfMemory>
    ensures { IfOk result (λ text. text ≡ malformed_text at) }
{
    let mut text = text_of(alloc, b"malformed@")?;
    text.append(decimal_word(u64::from(at)).as_slice())?;
    Ok(text)
}

/// The text of the expression of a part.
pub(crate) fn expr_text(alloc: Global, expr: &PartExpr) -> Result<Seq<u8>, OutOfMemory>
    ensures { IfOk result (λ text. text ≡ expr_text expr.now) }
{
    match expr {
        PartExpr::Absent => text_of(alloc, b"-"),
        PartExpr::Malformed(at) => malformed_text(alloc, *at),
        PartExpr::Held(depex) => depex_text(alloc, depex),
    }
}
