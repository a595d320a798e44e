// The text of an expression.
ghost use Rattle.std.specs.Prelude.{◌≡◌, ◌++◌, IfOk};
ghost use Rattle.asm_text.specs.ExpressionText.{expression_text, depex_text, sor_text, tree_text};
ghost use Rattle.pi_base.specs.WordText.{guid_text};

use crate::tree_text::{joined, tree_text};
use depex_code::{Depex, Tree};
use line_words::printed::LINE_FEED;
use pi_base::{Guid, OutOfMemory, Seq};
use std::alloc::Global;

// A word and the text of a GUID.
fn guid_line(alloc: Global, front: &[u8], guid: &Guid) -> Result<Seq<u8>, OutOfMemory>
    ensures { IfOk result (λ text. text ≡ front.now ++ guid_text guid.now) }
{
    joined(alloc, front, &guid.to_text())
}

// The word before a tree.
fn sor_text(sor: bool) -> &'static [u8]
    ensures { result.now ≡ sor_text sor }
{
    if sor { b"sor " } else { b"" }
}

// A tree, with `sor` in front or not.
fn tree_line(alloc: Global, sor: bool, tree: &Tree) -> Result<Seq<u8>, OutOfMemory>
    ensures { IfOk result (λ text. text ≡ sor_text sor ++ tree_text tree.now) }
{
    let text = tree_text(alloc, tree)?;
    joined(alloc, sor_text(sor), text.as_slice())
}

// The line without its line feed.
fn expression_text(alloc: Global, depex: &Depex) -> Result<Seq<u8>, OutOfMemory>
    ensures { IfOk result (λ text. text ≡ expression_text depex.now) }
{
    match depex {
        Depex::Before(guid) => guid_line(alloc, b"before ", guid),
        Depex::After(guid) => guid_line(alloc, b"after ", guid),
        Depex::Expr { sor, tree } => tree_line(alloc, *sor, tree),
    }
}

/// The text of an expression, one line with a tree, `sor` and a tree, `before` or `after` and a GUID.
pub fn print_depex(alloc: Global, depex: &Depex) -> Result<Seq<u8>, OutOfMemory>
    ensures { IfOk result (λ text. text ≡ depex_text depex.now) }
{
    let mut text = expression_text(alloc, depex)?;
    text.push(LINE_FEED)?;
    Ok(text)
}
