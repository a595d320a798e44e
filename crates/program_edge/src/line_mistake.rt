// The mistakes of one line: its form, and its numbers.
ghost use Rattle.std.specs.Prelude.{◌≡◌, ◌≢◌, ◌⊎◌, ◌<◌, ◌∷◌, [], ℕ, List, None, IfSome, false, length, slice_index};
ghost use Rattle.line_words.specs.Number.{number_of};
ghost use Rattle.program_edge.specs.{Mistake.IsMistake, Shape.HasShape};

use crate::kind::kind_of;
use crate::mistake::Mistake;
use crate::rule::Rule;
use crate::shape::{Shape, shape_of};
use boot_plan::MOST_NAME;
use line_words::number_of;

const SPACE: u8 = b' ';

const TILDE: u8 = b'~';

// The first byte of a line that no plan has.
fn unprintable(line: &[u8]) -> Option<&[u8]>
    ensures { IfSome result (λ word. (byte : ℕ) × (word.now ≡ byte ∷ []) × ((byte < 0x20) ⊎ (0x7e < byte))) }
{
    let mut rest = line;
    'search: while let [byte, after @ ..] = rest {
        if *byte < SPACE || *byte > TILDE {
            let (word, _) = rest.split_at(1);
            return Some(word);
        }
        rest = after;
    }
    None
}

// How many words a line has, as far as it may have any.
fn count_of(shape: Shape<'_>) -> usize
    ensures { (all : List (List ℕ)) → HasShape all shape.entry
        → (result < 4 → length all ≡ result) × (3 < result → 3 < length all) }
{
    match shape {
        Shape::Empty => 0,
        Shape::One(_) => 1,
        Shape::Two(..) => 2,
        Shape::Three(..) => 3,
        Shape::More(_) => 4,
    }
}

// The mistake of a line that neither has a byte of its own nor begins with a space.
fn words_mistake(line: &[u8]) -> Option<Mistake<'_>>
    requires { slice_index line.now 0 ≢ 32 }
    ensures { IfSome result (IsMistake line.now) }
{
    let shape = shape_of(line);
    let word = shape.first()?;
    if let [.., SPACE] = line {
        let rule = Rule::NoBackSpace;
        return Some(Mistake { word, rule });
    }
    let Some(kind) = kind_of(word) else {
        let rule = Rule::Keyword;
        return Some(Mistake { word, rule });
    };
    if count_of(shape) != kind.word_count() {
        let rule = Rule::Words(kind);
        return Some(Mistake { word, rule });
    }
    match shape {
        Shape::Three(_, _, name) if name.len() > MOST_NAME => Some(Mistake {
            word: name,
            rule: Rule::NameLength,
        }),
        _ => None,
    }
}

/// Why a line has no form.
pub(crate) fn word_mistake(line: &[u8]) -> Option<Mistake<'_>>
    ensures { IfSome result (IsMistake line.now) }
{
    if let Some(word) = unprintable(line) {
        let rule = Rule::Printable;
        return Some(Mistake { word, rule });
    }
    match line {
        [SPACE, ..] => Some(Mistake {
            word: line,
            rule: Rule::NoFrontSpace,
        }),
        _ => words_mistake(line),
    }
}

// Whether a word is a number.
fn is_number(word: &[u8]) -> bool
    ensures { result ≡ false → number_of word.now ≡ None }
{
    number_of(word).is_some()
}

/// Which word of a line of some form is no number.
pub(crate) fn number_mistake(line: &[u8]) -> Option<Mistake<'_>>
    ensures { IfSome result (IsMistake line.now) }
{
    if let [SPACE, ..] = line {
        return None;
    }
    let word = match shape_of(line) {
        Shape::Two(_, number) if !is_number(number) => number,
        Shape::Three(_, base, _) if !is_number(base) => base,
        Shape::Three(_, _, size) if !is_number(size) => size,
        _ => return None,
    };
    Some(Mistake {
        word,
        rule: Rule::Number,
    })
}
