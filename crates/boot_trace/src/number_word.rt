//! The words of numbers, bytes and expressions.
ghost use Rattle.std.specs.Prelude.{◌≡◌, ◌≤◌, ◌+◌, ◌++◌, [], ◌∷◌, decimal, length};
ghost use Rattle.hex.specs.Hex.{encode_lower};
ghost use Rattle.pi_base.specs.WordText.{hexadecimal};
ghost use Rattle.boot_model.specs.Text.{expression_text};

use crate::marks::{ABSENT, AFTER, BEFORE, DASH, MALFORMED_AT, SOR, TREE};
use arrayvec::ArrayVec;
use boot_model::ExpressionWord;
use pi_base::{DECIMAL_LEN, HEXADECIMAL_LEN, decimal, hexadecimal};

// How long the word of an expression is at most.
pub(crate) const EXPRESSION_LEN: usize = 43;

/// A number in decimal, without leading zeros.
pub fn decimal_word(number: u64) -> ArrayVec<u8, DECIMAL_LEN>
    ensures { result.items ≡ decimal number }
{
    let mut digits = [0u8; DECIMAL_LEN];
    let len = decimal(number, &mut digits);
    let mut word = ArrayVec::new();
    let (text, _) = digits.split_at(len);
    word.try_extend_from_slice(text).unwrap();
    word
}

/// A number in hexadecimal, with `0x` before it, in lower case and without leading zeros.
pub fn hexadecimal_word(number: u64) -> ArrayVec<u8, HEXADECIMAL_LEN>
    ensures { result.items ≡ hexadecimal number }
{
    let mut digits = [0u8; HEXADECIMAL_LEN];
    let len = hexadecimal(number, &mut digits);
    let mut word = ArrayVec::new();
    let (text, _) = digits.split_at(len);
    word.try_extend_from_slice(text).unwrap();
    word
}

// A text, and one behind it.
fn joined(front: &[u8], back: &[u8]) -> ArrayVec<u8, EXPRESSION_LEN>
    requires { length front.now + length back.now ≤ EXPRESSION_LEN }
    ensures { result.items ≡ front.now ++ back.now }
{
    let mut word = ArrayVec::new();
    word.try_extend_from_slice(front).unwrap();
    word.try_extend_from_slice(back).unwrap();
    word
}

// The word of a part's expression.
#[tactic(auto, unfolding(boot_model::specs::Text::expression_text))]
pub(crate) fn expression_word(expression: ExpressionWord) -> ArrayVec<u8, EXPRESSION_LEN>
    ensures { result.items ≡ expression_text expression }
{
    match expression {
        ExpressionWord::NoPart => joined(DASH, b""),
        ExpressionWord::Absent => joined(ABSENT, b""),
        ExpressionWord::Malformed(at) => joined(
            MALFORMED_AT,
            decimal_word(u64::from(at)).as_slice(),
        ),
        ExpressionWord::Tree => joined(TREE, b""),
        ExpressionWord::Sor => joined(SOR, b""),
        ExpressionWord::Before(name) => joined(BEFORE, &name.to_text()),
        ExpressionWord::After(name) => joined(AFTER, &name.to_text()),
    }
}

// A byte as two hexadecimal digits.
pub(crate) fn byte_word(byte: u8) -> [u8; 2]
    ensures { result ≡ encode_lower (byte ∷ []) }
{
    let mut digits = [0u8; 2];
    hex::encode_to_slice(&[byte], &mut digits).unwrap();
    digits
}
