// The words of a line.
ghost use Rattle.std.specs.Prelude.{◌≡◌, ◌<◌, ◌≤◌, ◌∷◌, [], length, slice_index, ℕ, true, false, IfSome, MatchOption};
ghost use Rattle.source_words.specs.Words.{is_blank, is_bracket, is_comment, is_inner, is_keyword, words};

// Whether a byte stands between words.
fn is_blank(byte: u8) -> bool
    ensures { result ≡ is_blank byte }
{
    byte == b' ' || byte == b'\t'
}

// Whether a byte is a word of its own.
fn is_bracket(byte: u8) -> bool
    ensures { result ≡ is_bracket byte }
{
    byte == b'(' || byte == b')'
}

// Whether a comment begins with a byte.
fn is_comment(byte: u8) -> bool
    ensures { result ≡ is_comment byte }
{
    byte == b'#'
}

// Whether a byte is one of a word of several.
fn is_inner(byte: u8) -> bool
    ensures { result ≡ is_inner byte }
{
    !(is_blank(byte) || is_comment(byte) || is_bracket(byte))
}

// What stands behind the blanks at the front.
fn behind_blanks(line: &[u8]) -> &[u8]
    ensures same { words result.now ≡ words line.now }
    ensures shorter { length result.now ≤ length line.now }
    ensures trimmed { 0 < length result.now → is_blank (slice_index result.now 0) ≡ false }
{
    let mut rest = line;
    'blanks: while let Some((first, after)) = rest.split_first() {
        if !is_blank(*first) {
            return rest;
        }
        rest = after;
    }
    rest
}

// How many bytes of words of several stand at the front.
fn inner_len(line: &[u8]) -> usize
    ensures inner { (place : ℕ) → place < result → is_inner (slice_index line.now place) ≡ true }
    ensures end { result < length line.now → is_inner (slice_index line.now result) ≡ false }
    ensures within { result ≤ length line.now }
{
    'search: for (place, byte) in line.iter().enumerate() {
        if !is_inner(*byte) {
            return place;
        }
    }
    line.len()
}

/// The first word of a line and what follows it. None where the line has no word.
///
/// Spaces and tabs stand between words, and a round bracket is a word of its own. A `#` begins a comment, which goes to the end of the line.
pub fn next_word(line: &[u8]) -> Option<(&[u8], &[u8])>
    ensures found { MatchOption result (words line.now ≡ []) (λ parts. words line.now ≡ parts.0.now ∷ words parts.1.now) }
    ensures shorter { IfSome result (λ parts. length parts.1.now < length line.now) }
{
    let rest = behind_blanks(line);
    match rest {
        [] => None,
        [first, ..] => {
            if is_comment(*first) {
                return None;
            }
            let len = if is_bracket(*first) {
                1
            } else {
                inner_len(rest)
            };
            Some(rest.split_at(len))
        }
    }
}

/// Whether a word is a keyword, in any case.
pub fn is_keyword(word: &[u8], keyword: &[u8]) -> bool
    ensures { result ≡ is_keyword word.now keyword.now }
{
    word.eq_ignore_ascii_case(keyword)
}
