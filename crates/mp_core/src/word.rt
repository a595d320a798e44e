// The words of a line, and the numbers in them.
ghost use Rattle.std.specs.Prelude.{◌≡◌, ◌≢◌, ◌≤◌, ◌<◌, ◌^◌, slice_index, IfSome};
ghost use Rattle.line_words.specs.Number.{number_in};
ghost use Rattle.mp_core.specs.Calls.{IsCount};
ghost use Rattle.mp_core.specs.Words.{Cuts, number_below, processor_of, count_of};

use line_words::{first_word, number_of};

// Every number of a processor is below this one.
const PROCESSORS_END: u64 = 1 << 32;

// The first word of what is left of a line, and what is left after it.
pub(crate) fn next_word(line: &[u8]) -> Option<(&[u8], &[u8])>
    requires { slice_index line.now 0 ≢ 32 }
    ensures { Cuts line.now result }
{
    if line.is_empty() {
        None
    } else {
        Some(first_word(line))
    }
}

// The number that decimal digits spell, below 2^64.
pub(crate) fn decimal_of(word: &[u8]) -> Option<u64>
    ensures { result ≡ number_in 10 word.now }
{
    match word {
        [b'0', b'x', ..] => None,
        digits => number_of(digits),
    }
}

// The number that decimal digits spell, below a limit.
pub(crate) fn number_below(word: &[u8], limit: u64) -> Option<u32>
    requires { limit ≤ 2 ^ 32 }
    ensures number { result ≡ number_below limit word.now }
    ensures fits { IfSome result (λ n. n < limit) }
{
    match decimal_of(word) {
        Some(n) if n < limit => Some(n as u32),
        _ => None,
    }
}

// The number of a processor, which need not be there.
pub(crate) fn processor_of(word: &[u8]) -> Option<u32>
    ensures { result ≡ processor_of word.now }
{
    number_below(word, PROCESSORS_END)
}

// The count that a word spells.
pub(crate) fn count_of(word: &[u8], most: u32) -> Option<u32>
    ensures count { result ≡ count_of most word.now }
    ensures fits { IfSome result (IsCount most) }
{
    match decimal_of(word) {
        Some(n) if 1 <= n && n <= u64::from(most) => Some(n as u32),
        _ => None,
    }
}
