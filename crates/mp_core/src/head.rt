// The first line of a file.
ghost use Rattle.std.specs.Prelude.{◌≡◌, ◌≢◌, ◌∷◌, slice_index, IfSome};
ghost use Rattle.line_words.specs.Words.{words};
ghost use Rattle.mp_core.specs.{declared.limits.TheConstants.MOST_CELLS, declared.limits.TheConstants.MOST_PROCESSORS, Calls.IsCount};
ghost use Rattle.mp_core.specs.LineText.{head_of, head_of_words};

use crate::limits::{MOST_CELLS, MOST_PROCESSORS};
use crate::word::{count_of, next_word};
use line_words::is_plain;

const HEAD: [u8; 2] = *b"mp";

// The numbers of processors and of cells that a first word and what is left after it spell.
fn head_behind(name: &[u8], rest: &[u8]) -> Option<(u32, u32)>
    requires { slice_index rest.now 0 ≢ 32 }
    ensures head { result ≡ head_of_words (name.now ∷ words rest.now) }
    ensures processors { IfSome result (λ head. IsCount MOST_PROCESSORS head.0) }
    ensures cells { IfSome result (λ head. IsCount MOST_CELLS head.1) }
{
    let (processors, rest) = next_word(rest)?;
    let (cells, rest) = next_word(rest)?;
    match next_word(rest) {
        Some(_) => None,
        None if name == HEAD.as_slice() => {
            let processors = count_of(processors, MOST_PROCESSORS)?;
            let cells = count_of(cells, MOST_CELLS)?;
            Some((processors, cells))
        }
        None => None,
    }
}

// The numbers of processors and of cells that a line spells.
pub(crate) fn head_of(line: &[u8]) -> Option<(u32, u32)>
    ensures head { result ≡ head_of line.now }
    ensures processors { IfSome result (λ head. IsCount MOST_PROCESSORS head.0) }
    ensures cells { IfSome result (λ head. IsCount MOST_CELLS head.1) }
{
    if !is_plain(line) {
        return None;
    }
    let (name, rest) = next_word(line)?;
    head_behind(name, rest)
}
