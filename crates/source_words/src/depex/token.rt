// The words of an expression.
ghost use Rattle.std.specs.Prelude.{◌≡◌, ◌<◌, ◌∷◌, [], length, IfSome, MatchOption};
ghost use Rattle.source_words.specs.Tokens.{guid_token, token_of, tokens};

use crate::{guid_of, is_keyword, next_word};
use pi_base::Guid;

/// An operand of one word.
#[derive(Clone, Copy)]
pub(crate) enum Leaf {
    /// TRUE.
    True,
    /// FALSE.
    False,
    /// A GUID: whether it is installed.
    Push(Guid),
}

/// An operator between two operands.
#[derive(Clone, Copy)]
pub(crate) enum Operator {
    /// AND.
    And,
    /// OR.
    Or,
}

/// A word that may stand first in an expression of DXE alone.
#[derive(Clone, Copy)]
pub(crate) enum First {
    /// SOR.
    Sor,
    /// BEFORE.
    Before,
    /// AFTER.
    After,
}

/// A word of an expression.
#[derive(Clone, Copy)]
pub(crate) enum Token {
    /// An operand.
    Leaf(Leaf),
    /// NOT.
    Not,
    /// An opening bracket.
    Open,
    /// A closing bracket.
    Close,
    /// AND or OR.
    Operator(Operator),
    /// SOR, BEFORE or AFTER.
    First(First),
    /// END.
    End,
    /// A word that an expression has not.
    Other,
}

// What a word is that is no keyword.
fn guid_token(word: &[u8]) -> Token
    ensures { result ≡ guid_token word.now }
{
    match guid_of(word) {
        Some(guid) => Token::Leaf(Leaf::Push(guid)),
        None => Token::Other,
    }
}

// What a word is. Keywords are read in any case.
#[tactic(auto, unfolding(crate::specs::Tokens::token_of))]
fn token_of(word: &[u8]) -> Token
    ensures { result ≡ token_of word.now }
{
    if is_keyword(word, b"(") {
        Token::Open
    } else if is_keyword(word, b")") {
        Token::Close
    } else if is_keyword(word, b"not") {
        Token::Not
    } else if is_keyword(word, b"and") {
        Token::Operator(Operator::And)
    } else if is_keyword(word, b"or") {
        Token::Operator(Operator::Or)
    } else if is_keyword(word, b"true") {
        Token::Leaf(Leaf::True)
    } else if is_keyword(word, b"false") {
        Token::Leaf(Leaf::False)
    } else if is_keyword(word, b"end") {
        Token::End
    } else if is_keyword(word, b"sor") {
        Token::First(First::Sor)
    } else if is_keyword(word, b"before") {
        Token::First(First::Before)
    } else if is_keyword(word, b"after") {
        Token::First(First::After)
    } else {
        guid_token(word)
    }
}

// The first word of a text and what follows it. None where no word is left.
pub(crate) fn next_token(text: &[u8]) -> Option<(Token, &[u8])>
    ensures found { MatchOption result (tokens text.now ≡ []) (λ x. tokens text.now ≡ x.0 ∷ tokens x.1.now) }
    ensures shorter { IfSome result (λ x. length x.1.now < length text.now) }
{
    match next_word(text) {
        Some((word, rest)) => Some((token_of(word), rest)),
        None => None,
    }
}
