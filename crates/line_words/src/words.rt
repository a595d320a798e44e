// The words of a line.
ghost use Rattle.std.specs.Prelude.{◌≡◌, ◌≢◌, ◌<◌, ◌≤◌, ◌&&◌, nat_le, ◌∷◌, [], length, slice_index};
ghost use Rattle.std.specs.List.{list_all};
ghost use Rattle.line_words.specs.Words.{words, is_plain, has_outer_space};

use crate::line::place_of;

const SPACE: u8 = b' ';

const TILDE: u8 = b'~';

/// Whether each byte is printable.
pub fn is_printable(line: &[u8]) -> bool
    ensures { result ≡ list_all (λ byte. nat_le 0x20 byte && nat_le byte 0x7e) line.now }
{
    line.iter().all(|byte| *byte >= SPACE && *byte <= TILDE)
}

// Whether a space is first or last.
fn has_outer_space(line: &[u8]) -> bool
    ensures { result ≡ has_outer_space line.now }
{
    matches!(line, [SPACE, ..] | [.., SPACE])
}

/// Whether a line has printable characters alone, and a space neither first nor last.
pub fn is_plain(line: &[u8]) -> bool
    ensures { result ≡ is_plain line.now }
{
    is_printable(line) && !has_outer_space(line)
}

// What is after the spaces at the front.
fn behind_spaces(line: &[u8]) -> &[u8]
    ensures same { words result.now ≡ words line.now }
    ensures shorter { length result.now ≤ length line.now }
    ensures trimmed { slice_index result.now 0 ≢ 32 }
{
    let mut rest = line;
    'spaces: while let [SPACE, after @ ..] = rest {
        rest = after;
    }
    rest
}

/// The first word of a line that does not begin with a space, and the rest from the next word on.
pub fn first_word(line: &[u8]) -> (&[u8], &[u8])
    requires { slice_index line.now 0 ≢ 32 }
    ensures words { 0 < length line.now → words line.now ≡ result.0.now ∷ words result.1.now }
    ensures some { 0 < length line.now → 0 < length result.0.now }
    ensures none { line.now ≡ [] → (result.0.now ≡ []) × (result.1.now ≡ []) }
    ensures trimmed { slice_index result.1.now 0 ≢ 32 }
{
    let (word, rest) = line.split_at(place_of(line, SPACE));
    (word, behind_spaces(rest))
}
