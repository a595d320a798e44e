// The words of a line, each as the value that it shows.
ghost use Rattle.std.specs.Prelude.{◌≡◌, ◌++◌, ℕ, List, [], ◌∷◌, ⊤, flat_map};
ghost use Rattle.boot_io.specs.Line.{spaced};
ghost use Rattle.line_words.specs.PrintedWords.{Finds, IsPlain};

use line_words::place_of;
use line_words::printed::behind;

pub(crate) const SPACE: u8 = b' ';

// What one word of a line shows.
pub(crate) trait Field: Sized {
    ghost use Rattle.std.specs.Prelude.{◌≡◌, ℕ, List};
    ghost use Rattle.line_words.specs.PrintedWords.{Finds, IsPlain};

    // The word of a value, and which values there are.
    ghost shows: { Self → List ℕ };

    ghost fits: { Self → Type 0 };

    // The value that a word shows. No word has a space.
    fn read(word: &[u8]) -> Option<Self>
        ensures found { Finds (λ value. fits value × (word.now ≡ shows value)) result }
        ensures plain { (value : Self) → fits value → IsPlain (shows value) };
}

// What the words after a keyword show.
pub(crate) trait Fields: Sized {
    ghost words: { Self → List (List ℕ) };

    ghost valid: { Self → Type 0 };

    // The values that a text of words shows, each after a space.
    fn read_all(text: &[u8]) -> Option<Self>
        ensures { Finds (λ values. valid values × (text.now ≡ flat_map spaced (words values))) result };
}

impl Fields for () {
    ghost words = { λ _. [] };

    ghost valid = { λ _. ⊤ };

    fn read_all(text: &[u8]) -> Option<()> {
        if text.is_empty() { Some(()) } else { None }
    }
}

impl<A: Field + Drop, B: Fields> Fields for (A, B) {
    ghost words = { λ values. A.shows values.0 ∷ B.words values.1 };

    ghost valid = { λ values. A.fits values.0 × B.valid values.1 };

    fn read_all(text: &[u8]) -> Option<(A, B)> {
        let Some(after) = behind(text, b" ") else {
            return None;
        };
        let (word, rest) = after.split_at(place_of(after, SPACE));
        let Some(first) = A::read(word) else {
            return None;
        };
        let Some(others) = B::read_all(rest) else {
            return None;
        };
        Some((first, others))
    }
}

// The values that the words of a line after a keyword show.
pub(crate) fn fields_after<F: Fields>(line: &[u8], keyword: &[u8]) -> Option<F>
    ensures { Finds (λ values. F.valid values × (line.now ≡ keyword.now ++ flat_map spaced (F.words values))) result }
{
    match behind(line, keyword) {
        Some(rest) => F::read_all(rest),
        None => None,
    }
}
