// Words of expressions.
ghost use Rattle.std.specs.Prelude.{◌≡◌, ◌++◌, IfSome, IsNone};
ghost use Rattle.boot_model.specs.Text.{expression_text};
ghost use Rattle.line_words.specs.PrintedWords.{Finds};
ghost use Rattle.trace_reader.specs.{Readable.IsExpression, Lacking.LacksPlainExpressions};

use crate::field::Field;
use boot_model::ExpressionWord;
use boot_trace::marks::{ABSENT, AFTER, BEFORE, DASH, MALFORMED_AT, SOR, TREE};
use line_words::printed::behind;

// What a field shows after a front.
fn read_behind<F: Field>(word: &[u8], front: &[u8]) -> Option<F>
    ensures { Finds (λ value. F.fits value × (word.now ≡ front.now ++ F.shows value)) result }
{
    match behind(word, front) {
        Some(rest) => F::read(rest),
        None => None,
    }
}

// An expression that has a word of its own.
#[tactic(auto, unfolding(boot_model::specs::Text::expression_text))]
fn plain_expression(word: &[u8]) -> Option<ExpressionWord>
    ensures read { IfSome result (λ expression. IsExpression expression × (word.now ≡ expression_text expression)) }
    ensures none { IsNone result → LacksPlainExpressions word.now }
{
    if word == DASH {
        Some(ExpressionWord::NoPart)
    } else if word == ABSENT {
        Some(ExpressionWord::Absent)
    } else if word == TREE {
        Some(ExpressionWord::Tree)
    } else if word == SOR {
        Some(ExpressionWord::Sor)
    } else {
        None
    }
}

impl Field for ExpressionWord {
    ghost use Rattle.boot_model.specs.Text.{expression_text};
    ghost use Rattle.trace_reader.specs.Readable.{IsExpression};

    ghost shows = { expression_text };

    ghost fits = { IsExpression };

    #[tactic(auto, using(crate::proofs::PlainWords::expression_plain), unfolding(boot_model::specs::Text::expression_text))]
    fn read(word: &[u8]) -> Option<ExpressionWord> {
        if let Some(expression) = plain_expression(word) {
            return Some(expression);
        }
        if let Some(at) = read_behind(word, MALFORMED_AT) {
            return Some(ExpressionWord::Malformed(at));
        }
        if let Some(name) = read_behind(word, BEFORE) {
            return Some(ExpressionWord::Before(name));
        }
        match read_behind(word, AFTER) {
            Some(name) => Some(ExpressionWord::After(name)),
            None => None,
        }
    }
}
