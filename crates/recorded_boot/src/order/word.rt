// The words of a line, and what they spell.
ghost use Rattle.std.specs.Prelude.{◌≡◌, ◌≢◌, slice_index};
ghost use Rattle.recorded_boot.specs.Words.{Cuts, volume_of, guid_of};

use line_words::{first_word, number_of};
use pi_base::Guid;

// Every number of a volume is below this one.
const VOLUMES_END: u64 = 1 << 32;

// The first word of what is left of a line, and what is left after it.
pub(crate) fn next_word(line: &[u8]) -> Option<(&[u8], &[u8])>
    requires { slice_index line.now 0 ≢ 32 }
    ensures { Cuts line.now result }
{
    if line.is_empty() {
        None
    } else {
        Some(first_word(line))
    }
}

// The number of a volume, which need not be there.
pub(crate) fn volume_of(word: &[u8]) -> Option<u32>
    ensures { result ≡ volume_of word.now }
{
    match number_of(word) {
        Some(number) if number < VOLUMES_END => Some(number as u32),
        _ => None,
    }
}

// The GUID whose usual text a word is, in either letter case.
pub(crate) fn guid_of(word: &[u8]) -> Option<Guid>
    ensures { result ≡ guid_of word.now }
{
    Guid::from_text(word)
}
