// The words of a line, as far as a plan's line may have any.
ghost use Rattle.std.specs.Prelude.{◌≡◌, ◌≢◌, ◌<◌, ◌∷◌, [], slice_index, MatchOption, IfSome};
ghost use Rattle.line_words.specs.Words.{words};
ghost use Rattle.program_edge.specs.Shape.{HasShape};

use line_words::first_word;

/// The words of a line.
#[derive(Clone, Copy)]
pub(crate) enum Shape<'a> {
    /// The line is empty.
    Empty,
    One(&'a [u8]),
    Two(&'a [u8], &'a [u8]),
    Three(&'a [u8], &'a [u8], &'a [u8]),
    /// There are four or more, and this is the first.
    More(&'a [u8]),
}

// The first word of a line and what follows it, if the line has a word.
fn next_word(line: &[u8]) -> Option<(&[u8], &[u8])>
    requires { slice_index line.now 0 ≢ 32 }
    ensures found { MatchOption result (words line.now ≡ []) (λ parts. words line.now ≡ parts.0.now ∷ words parts.1.now) }
    ensures trimmed { IfSome result (λ parts. slice_index parts.1.now 0 ≢ 32) }
{
    if line.is_empty() {
        None
    } else {
        Some(first_word(line))
    }
}

/// The words of a line that no space begins.
pub(crate) fn shape_of(line: &[u8]) -> Shape<'_>
    requires { slice_index line.now 0 ≢ 32 }
    ensures { HasShape (words line.now) result }
{
    let Some((first, rest)) = next_word(line) else {
        return Shape::Empty;
    };
    let Some((second, rest)) = next_word(rest) else {
        return Shape::One(first);
    };
    let Some((third, rest)) = next_word(rest) else {
        return Shape::Two(first, second);
    };
    match next_word(rest) {
        None => Shape::Three(first, second, third),
        Some(_) => Shape::More(first),
    }
}

impl<'a> Shape<'a> {
    ghost use Rattle.std.specs.Prelude.{◌≡◌, ◌∷◌, [], ℕ, List, IfSome, IsNone};
    ghost use Rattle.program_edge.specs.Shape.{HasShape};

    /// The first word.
    pub(crate) fn first(self) -> Option<&'a [u8]>
        ensures found { IfSome result
            (λ word. (all : List (List ℕ)) → HasShape all self.entry → (rest : List (List ℕ)) × (all ≡ word.now ∷ rest)) }
        ensures none { IsNone result → (all : List (List ℕ)) → HasShape all self.entry → all ≡ [] }
    {
        match self {
            Shape::Empty => None,
            Shape::One(first) => Some(first),
            Shape::Two(first, _) => Some(first),
            Shape::Three(first, _, _) => Some(first),
            Shape::More(first) => Some(first),
        }
    }
}
