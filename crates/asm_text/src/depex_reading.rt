// Reading the text of an expression.
ghost use Rattle.std.specs.Prelude.{◌≡◌, ◌≤◌, ◌<◌, length, option_map, Option, IfOk, IfErr};
ghost use Rattle.depex_code.specs.{declared.depex.Depex.Depex, Expression.instructions, Tree.DepexTree};
ghost use Rattle.depex_code.specs.declared.depex.Depex.TheVariants as depex;
ghost use Rattle.asm_text.specs.{Front.guid_word, ReadTree.IsTreeOf, ReadTree.IsExpressionOf};
ghost use Rattle.line_words.specs.PrintedWords.{Finds};
ghost use Rattle.asm_text.specs.ReadDepex.{IsDepexOf, IsDepexRefused, GivesBack};

use crate::fault::TextFault;
use crate::front::{behind, guid_word};
use crate::tree_reading::tree_of;
use depex_code::{Depex, MOST_OPCODES};
use line_words::printed::first_line;
use pi_base::OutOfMemory;
use std::alloc::Global;

// The driver's name after `before`.
fn before_line(word: &[u8]) -> Option<Depex>
    ensures { result ≡ option_map depex.Before (guid_word word.now) }
{
    match guid_word(word) {
        Some(guid) => Some(Depex::Before(guid)),
        None => None,
    }
}

// The driver's name after `after`.
fn after_line(word: &[u8]) -> Option<Depex>
    ensures { result ≡ option_map depex.After (guid_word word.now) }
{
    match guid_word(word) {
        Some(guid) => Some(Depex::After(guid)),
        None => None,
    }
}

// A tree, after `sor` or not.
fn tree_line(alloc: Global, sor: bool, text: &[u8]) -> Result<Option<Depex>, OutOfMemory>
    ensures { IfOk result
        (λ found. (tree : Option DepexTree) × Finds (IsTreeOf text.now) tree × (found ≡ option_map (depex.Expr sor) tree)) }
{
    match tree_of(alloc, text)? {
        Some(tree) => Ok(Some(Depex::Expr { sor, tree })),
        None => Ok(None),
    }
}

// The expression whose line this is, without its line feed.
fn expression(alloc: Global, line: &[u8]) -> Result<Option<Depex>, OutOfMemory>
    ensures { IfOk result (Finds (IsExpressionOf line.now)) }
{
    if let Some(word) = behind(line, b"before ") {
        return Ok(before_line(word));
    }
    if let Some(word) = behind(line, b"after ") {
        return Ok(after_line(word));
    }
    if let Some(text) = behind(line, b"sor ") {
        return tree_line(alloc, true, text);
    }
    tree_line(alloc, false, line)
}

// Reads an expression's text, or returns why it is not one.
fn read_text(alloc: Global, text: &[u8]) -> Result<Depex, TextFault>
    ensures read { IfOk result (IsDepexOf text.now) }
    ensures few { IfOk result (λ depex. length (instructions depex) ≤ 1024) }
    ensures refused { IfErr result (IsDepexRefused text.now) }
{
    let Some((line, rest)) = first_line(text) else {
        return Err(TextFault::Bad { line: 1 });
    };
    let Some(depex) = expression(alloc, line)? else {
        return Err(TextFault::Bad { line: 1 });
    };
    if !rest.is_empty() {
        return Err(TextFault::Bad { line: 2 });
    }
    if depex.opcode_count() > MOST_OPCODES {
        return Err(TextFault::TooLong);
    }
    Ok(depex)
}

/// Reads the text of an expression: one line with its line feed.
pub fn parse_depex(alloc: Global, text: &[u8]) -> Result<Depex, TextFault>
    // What is read is the expression whose text this is, of at most 1,024 opcodes.
    ensures read { IfOk result (IsDepexOf text.now) }
    ensures few { IfOk result (λ depex. length (instructions depex) ≤ 1024) }
    // The text of such an expression is read as it, unless memory ran out.
    ensures again { (depex : Depex) → IsDepexOf text.now depex → length (instructions depex) ≤ 1024 → GivesBack depex result }
    // If nothing is read, the text is that of a longer expression, or goes wrong with this line, or memory ran out.
    ensures refused { IfErr result (IsDepexRefused text.now) }
{
    read_text(alloc, text)
}
