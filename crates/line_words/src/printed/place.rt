// What is after a front, and the lines that line feeds end.
ghost use Rattle.std.specs.Prelude.{◌≡◌, ◌≢◌, ◌++◌, ◌∷◌, ℕ, List, MatchOption};
ghost use Rattle.line_words.specs.PrintedWords.{Lacks};

use crate::line::place_of;

/// What ends a printed line.
pub const LINE_FEED: u8 = b'\n';

/// What follows `front` in the bytes. None if they do not begin with it.
pub fn behind<'a>(bytes: &'a [u8], front: &[u8]) -> Option<&'a [u8]>
    ensures { MatchOption result ((rest : List ℕ) → bytes.now ≢ front.now ++ rest) (λ rest. bytes.now ≡ front.now ++ rest.now) }
{
    bytes.strip_prefix(front)
}

/// The first line of a text without its line feed, and what follows it. None if the text has no line feed.
pub fn first_line(text: &[u8]) -> Option<(&[u8], &[u8])>
    ensures { MatchOption result (Lacks 10 text.now) (λ parts. (text.now ≡ parts.0.now ++ 10 ∷ parts.1.now) × Lacks 10 parts.0.now) }
{
    let (line, rest) = text.split_at(place_of(text, LINE_FEED));
    match rest {
        [_, after @ ..] => Some((line, after)),
        [] => None,
    }
}
