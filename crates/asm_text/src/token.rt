// The tokens of a tree's text.
ghost use Rattle.std.specs.Prelude.{◌≡◌, ◌<◌, length, option_map, IfSome};
ghost use Rattle.asm_text.specs.Walk.{token_at, operator_at};

use crate::front::{behind, guid_front};
use depex_code::Opcode;

/// What waits for an operand.
#[derive(Clone, Copy)]
pub(crate) enum Waiting {
    /// A `not`.
    Negation,
    /// A bracket, for its first operand.
    First,
    /// A bracket, for its second operand after `and`.
    Conjunction,
    /// A bracket, for its second operand after `or`.
    Disjunction,
}

/// What is at the beginning of an operand.
#[derive(Clone, Copy)]
pub(crate) enum Token {
    /// Something that waits for an operand.
    Waits(Waiting),
    /// An operand of one opcode.
    Is(Opcode),
}

// The token at the beginning of an operand, and what follows it.
#[tactic(auto, unfolding(crate::specs::Walk::token_at))]
pub(crate) fn token_at(text: &[u8]) -> Option<(Token, &[u8])>
    ensures found { option_map (λ x. (x.0, x.1.now)) result ≡ token_at text.now }
    ensures shorter { IfSome result (λ x. length x.1.now < length text.now) }
{
    if let Some(rest) = behind(text, b"(") {
        return Some((Token::Waits(Waiting::First), rest));
    }
    if let Some(rest) = behind(text, b"not ") {
        return Some((Token::Waits(Waiting::Negation), rest));
    }
    if let Some(rest) = behind(text, b"true") {
        return Some((Token::Is(Opcode::True), rest));
    }
    if let Some(rest) = behind(text, b"false") {
        return Some((Token::Is(Opcode::False), rest));
    }
    if let Some((guid, rest)) = guid_front(text) {
        return Some((Token::Is(Opcode::Push(guid)), rest));
    }
    None
}

// The operator after a first operand, and what follows it.
#[tactic(auto, unfolding(crate::specs::Walk::operator_at))]
pub(crate) fn operator_at(text: &[u8]) -> Option<(Waiting, &[u8])>
    ensures found { option_map (λ x. (x.0, x.1.now)) result ≡ operator_at text.now }
    ensures shorter { IfSome result (λ x. length x.1.now < length text.now) }
{
    if let Some(rest) = behind(text, b" and ") {
        return Some((Waiting::Conjunction, rest));
    }
    if let Some(rest) = behind(text, b" or ") {
        return Some((Waiting::Disjunction, rest));
    }
    None
}
