// Expressions.
ghost use Rattle.std.specs.Prelude.{◌≡◌, ◌≤◌, ◌∷◌, length, IfOk, IfErr, IfSome, IfNone, zero};
ghost use Rattle.pi_base.specs.declared.phase.Phase.{Phase};
ghost use Rattle.depex_code.specs.{declared.depex.Depex.Depex, Expression.instructions};
ghost use Rattle.source_words.specs.{Tokens.tokens, declared.depex.walk.Stage.TheVariants.Due};
ghost use Rattle.source_words.specs.Cause.{expression_cause, first_cause, tree_cause};
ghost use Rattle.source_words.specs.Expression.{FindsEnd, FindsGuid, FindsDepex, Says, GivesBack, IsRefused};

use crate::depex::fault::ExpressionFault;
use crate::depex::token::{First, Leaf, Token, next_token};
use crate::depex::tree::tree_of;
use depex_code::{Depex, MOST_OPCODES};
use pi_base::{Guid, Phase};
use std::alloc::Global;

// Nothing, or END alone.
fn end_of(text: &[u8]) -> Result<(), ExpressionFault>
    ensures { FindsEnd (tokens text.now) result }
{
    match next_token(text) {
        None => Ok(()),
        Some((Token::End, rest)) => match next_token(rest) {
            None => Ok(()),
            Some(_) => Err(ExpressionFault::Extra),
        },
        Some(_) => Err(ExpressionFault::Extra),
    }
}

// The driver's name behind BEFORE or AFTER.
fn guid_of(text: &[u8]) -> Result<Guid, ExpressionFault>
    ensures { FindsGuid (tokens text.now) result }
{
    match next_token(text) {
        Some((Token::Leaf(Leaf::Push(guid)), rest)) => {
            end_of(rest)?;
            Ok(guid)
        }
        Some(_) => Err(ExpressionFault::NoGuid),
        None => Err(ExpressionFault::NoOperand),
    }
}

// The driver's expression behind SOR, BEFORE or AFTER.
fn behind_first(alloc: Global, first: First, rest: &[u8]) -> Result<Depex, ExpressionFault>
    ensures { FindsDepex Phase.Dxe (Token.First first ∷ tokens rest.now) (first_cause Phase.Dxe first (tokens rest.now)) result }
{
    match first {
        First::Sor => {
            let tree = tree_of(alloc, rest)?;
            Ok(Depex::Expr { sor: true, tree })
        }
        First::Before => Ok(Depex::Before(guid_of(rest)?)),
        First::After => Ok(Depex::After(guid_of(rest)?)),
    }
}

// The expression without a word before its tree.
fn plain(alloc: Global, text: &[u8]) -> Result<Depex, ExpressionFault>
    ensures { (phase : Phase) → FindsDepex phase (tokens text.now) (tree_cause zero Due (tokens text.now)) result }
{
    let tree = tree_of(alloc, text)?;
    Ok(Depex::Expr { sor: false, tree })
}

// SOR, BEFORE or AFTER, where one stands first, and what follows it.
fn first_of(text: &[u8]) -> Option<(First, &[u8])>
    ensures found { IfSome result (λ x. tokens text.now ≡ Token.First x.0 ∷ tokens x.1.now) }
    ensures none { IfNone result ((phase : Phase) → expression_cause phase (tokens text.now) ≡ tree_cause zero Due (tokens text.now)) }
{
    let Some((token, rest)) = next_token(text) else {
        return None;
    };
    match token {
        Token::First(first) => Some((first, rest)),
        Token::Leaf(_) | Token::Not | Token::Open | Token::Close => None,
        Token::Operator(_) | Token::End | Token::Other => None,
    }
}

// The expression that a text says, of any length.
fn read(alloc: Global, phase: Phase, text: &[u8]) -> Result<Depex, ExpressionFault>
    ensures { FindsDepex phase (tokens text.now) (expression_cause phase (tokens text.now)) result }
{
    let Some((first, rest)) = first_of(text) else {
        return plain(alloc, text);
    };
    match phase {
        Phase::Pei => Err(ExpressionFault::OtherPhase),
        Phase::Dxe => behind_first(alloc, first, rest),
    }
}

// The expression that a text says, of few opcodes.
fn read_short(alloc: Global, phase: Phase, text: &[u8]) -> Result<Depex, ExpressionFault>
    ensures read { IfOk result (Says phase text.now) }
    ensures few { IfOk result (λ expression. length (instructions expression) ≤ 1024) }
    ensures refused { IfErr result (IsRefused phase text.now) }
{
    let expression = read(alloc, phase, text)?;
    if expression.opcode_count() > MOST_OPCODES {
        return Err(ExpressionFault::TooLong);
    }
    Ok(expression)
}

/// The expression of a phase that the words of a text say, as in `[Depex]` of an INF file.
///
/// NOT binds first, AND and OR alike and grouped from the right; keywords stand in any case, GUIDs as in `crate::guid_of`, and END may stand last.
pub fn read_expression(alloc: Global, phase: Phase, text: &[u8]) -> Result<Depex, ExpressionFault>
    // What is read is the expression that the words say, of at most 1,024 opcodes.
    ensures read { IfOk result (Says phase text.now) }
    ensures few { IfOk result (λ expression. length (instructions expression) ≤ 1024) }
    // Words that say such an expression are read as it, unless memory ran out.
    ensures again { (expression : Depex) → Says phase text.now expression → length (instructions expression) ≤ 1024
        → GivesBack expression result }
    // Where nothing is read, this is wrong with the words, or they say a longer expression, or memory ran out.
    ensures refused { IfErr result (IsRefused phase text.now) }
{
    read_short(alloc, phase, text)
}
