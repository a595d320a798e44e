// The fixed words of lines.
ghost use Rattle.std.specs.Prelude.{◌≡◌, ⊤};
ghost use Rattle.line_words.specs.PrintedWords.{Finds, IsPlain};

use crate::field::Field;
use boot_trace::FixedWord;

// A value of few, each with a word of its own.
#[derive(Clone, Copy)]
pub(crate) struct Fixed<T> {
    pub value: T,
}

// The value whose word this is.
fn with_word<T: FixedWord>(word: &[u8]) -> Option<T>
    ensures found { Finds (λ value. ⊤ × (word.now ≡ T.text_of value)) result }
    ensures plain { (value : T) → IsPlain (T.text_of value) }
{
    'values: for value in T::all() {
        if value.word() == word {
            return Some(*value);
        }
    }
    None
}

impl<T: FixedWord> Field for Fixed<T> {
    ghost use Rattle.std.specs.Prelude.{⊤};

    ghost shows = { λ fixed. T.text_of fixed.value };

    ghost fits = { λ _. ⊤ };

    fn read(word: &[u8]) -> Option<Fixed<T>> {
        match with_word(word) {
            Some(value) => Some(Fixed { value }),
            None => None,
        }
    }
}
