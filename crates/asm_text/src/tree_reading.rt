// Reading the text of a tree, with a stack of what waits for an operand.
ghost use Rattle.std.specs.Prelude.{◌≡◌, ◌≤◌, ◌<◌, ◌+◌, ◌*◌, [], List, Some, true, false, codes, length, IfOk, IfSome, MatchBool};
ghost use Rattle.depex_code.specs.{declared.opcode.Opcode.Opcode, Tree.DepexTree};
ghost use Rattle.depex_code.specs.declared.opcode.Opcode.TheVariants as opcode;
ghost use Rattle.asm_text.specs.{declared.token.Waiting.Waiting, Front.behind};
ghost use Rattle.asm_text.specs.Walk.{Goes, turned, opened, closed, resumed, split_last, next_place, token_at, operator_at};
ghost use Rattle.line_words.specs.PrintedWords.{Finds};
ghost use Rattle.asm_text.specs.ReadTree.{FindsCode, IsCodeOf, IsTreeOf};

use crate::front::behind;
use crate::token::{Token, Waiting, operator_at, token_at};
use depex_code::{Opcode, Tree};
use pi_base::{OutOfMemory, Seq};
use std::alloc::Global;

// What follows the token at the beginning of an operand, and whether an operand ends there.
fn begin<'a>(
    text: &'a [u8],
    waiting: &mut Seq<Waiting>,
    code: &mut Seq<Opcode>,
) -> Result<Option<(&'a [u8], bool)>, OutOfMemory>
    ensures goes { IfOk result (Goes (turned waiting.old code.old (token_at text.now)) waiting.new code.new) }
    ensures less { IfOk result
        (λ next. IfSome next (λ x. length waiting.new + 2 * length x.0.now < length waiting.old + 2 * length text.now)) }
{
    let Some((token, rest)) = token_at(text) else {
        return Ok(None);
    };
    match token {
        Token::Waits(what) => {
            waiting.push(what)?;
            Ok(Some((rest, false)))
        }
        Token::Is(opcode) => {
            code.push(opcode)?;
            Ok(Some((rest, true)))
        }
    }
}

// What follows the operator after a bracket's first operand.
fn open<'a>(
    text: &'a [u8],
    waiting: &mut Seq<Waiting>,
) -> Result<Option<(&'a [u8], bool)>, OutOfMemory>
    ensures goes { (code : List Opcode) → IfOk result (Goes (opened waiting.old code (operator_at text.now)) waiting.new code) }
    ensures less { IfOk result
        (λ next. IfSome next (λ x. length waiting.new + 2 * length x.0.now < 1 + length waiting.old + 2 * length text.now)) }
{
    let Some((what, rest)) = operator_at(text) else {
        return Ok(None);
    };
    waiting.push(what)?;
    Ok(Some((rest, false)))
}

// What follows an operand that ends with its operator.
fn ended_by<'a>(
    text: &'a [u8],
    code: &mut Seq<Opcode>,
    operator: Opcode,
) -> Result<Option<(&'a [u8], bool)>, OutOfMemory>
    ensures goes { (waiting : List Waiting) → IfOk result (Goes (closed waiting code.old operator (Some text.now)) waiting code.new) }
    ensures less { IfOk result (λ next. IfSome next (λ x. length x.0.now ≤ length text.now)) }
{
    code.push(operator)?;
    Ok(Some((text, true)))
}

// What follows the closing bracket after the operands of an operator.
fn close<'a>(
    text: &'a [u8],
    code: &mut Seq<Opcode>,
    operator: Opcode,
) -> Result<Option<(&'a [u8], bool)>, OutOfMemory>
    ensures goes { (waiting : List Waiting)
        → IfOk result (Goes (closed waiting code.old operator (behind (codes ")") text.now)) waiting code.new) }
    ensures less { IfOk result (λ next. IfSome next (λ x. length x.0.now < length text.now)) }
{
    match behind(text, b")") {
        Some(rest) => ended_by(rest, code, operator),
        None => Ok(None),
    }
}

// What follows the end of an operand, which depends on what waits for it.
fn resume<'a>(
    text: &'a [u8],
    waiting: &mut Seq<Waiting>,
    code: &mut Seq<Opcode>,
) -> Result<Option<(&'a [u8], bool)>, OutOfMemory>
    ensures goes { IfOk result (Goes (resumed text.now code.old (split_last waiting.old)) waiting.new code.new) }
    ensures less { IfOk result
        (λ next. IfSome next (λ x. length waiting.new + 2 * length x.0.now < length waiting.old + 2 * length text.now)) }
{
    let Some(what) = waiting.pop() else {
        return Ok(None);
    };
    match what {
        Waiting::Negation => ended_by(text, code, Opcode::Not),
        Waiting::First => open(text, waiting),
        Waiting::Conjunction => close(text, code, Opcode::And),
        Waiting::Disjunction => close(text, code, Opcode::Or),
    }
}

// What follows a place of the text.
fn go<'a>(
    text: &'a [u8],
    ended: bool,
    waiting: &mut Seq<Waiting>,
    code: &mut Seq<Opcode>,
) -> Result<Option<(&'a [u8], bool)>, OutOfMemory>
    ensures goes { IfOk result (Goes (next_place text.now ended waiting.old code.old) waiting.new code.new) }
    ensures less { IfOk result
        (λ next. IfSome next (λ x. length waiting.new + 2 * length x.0.now < length waiting.old + 2 * length text.now)) }
{
    if ended {
        resume(text, waiting, code)
    } else {
        begin(text, waiting, code)
    }
}

// Whether the text of a tree continues at a place.
fn goes_on(ended: bool, waiting: &Seq<Waiting>) -> bool
    ensures on { result ≡ true → ended ≡ true → waiting.now ≡ [] → ⊥ }
    ensures end { result ≡ false → (ended ≡ true) × (waiting.now ≡ []) }
{
    !ended || !waiting.is_empty()
}

// Whether the text is that of a tree, whose postfix opcodes are then written.
fn walk(
    text: &[u8],
    waiting: &mut Seq<Waiting>,
    code: &mut Seq<Opcode>,
) -> Result<bool, OutOfMemory>
    requires waiting { waiting.old ≡ [] }
    requires code { code.old ≡ [] }
    ensures { IfOk result (λ is. MatchBool is (IsCodeOf text.now code.new) ((node : DepexTree) → IsTreeOf text.now node → ⊥)) }
{
    let mut rest = text;
    let mut ended = false;
    'walk: while goes_on(ended, waiting) {
        match go(rest, ended, waiting, code)? {
            Some((behind, at_end)) => {
                rest = behind;
                ended = at_end;
            }
            None => return Ok(false),
        }
    }
    Ok(rest.is_empty())
}

// The postfix opcodes of the tree whose text this is.
fn code_of(alloc: Global, text: &[u8]) -> Result<Option<Seq<Opcode>>, OutOfMemory>
    ensures { IfOk result (FindsCode text.now) }
{
    let mut waiting = Seq::new(alloc);
    let mut code = Seq::new(alloc);
    match walk(text, &mut waiting, &mut code) {
        Ok(true) => Ok(Some(code)),
        Ok(false) => Ok(None),
        Err(want) => Err(want),
    }
}

// The tree whose text this is.
pub(crate) fn tree_of(alloc: Global, text: &[u8]) -> Result<Option<Tree>, OutOfMemory>
    ensures { IfOk result (Finds (IsTreeOf text.now)) }
{
    match code_of(alloc, text)? {
        Some(code) => Ok(Tree::from_code(code)),
        None => Ok(None),
    }
}
