// The lines of a text.
ghost use Rattle.std.specs.Prelude.{◌≡◌, ◌≤◌, ◌<◌, ◌∷◌, length, ◌==◌};
ghost use Rattle.std.specs.{List.position_or_len, Str.Lines.strip_carriage_return};
ghost use Rattle.line_words.specs.Line.{lines, is_passed_over};

const LINE_FEED: u8 = b'\n';

const CARRIAGE_RETURN: u8 = b'\r';

const COMMENT: u8 = b'#';

/// The index of the first byte of this value, or the length if there is none.
pub fn place_of(bytes: &[u8], sought: u8) -> usize
    ensures first { result ≡ position_or_len (λ b. b == sought) bytes.now }
    ensures within { result ≤ length bytes.now }
{
    'search: for (place, byte) in bytes.iter().enumerate() {
        if *byte == sought {
            return place;
        }
    }
    bytes.len()
}

// A line that ended with a line feed, without a carriage return before it.
fn without_return(line: &[u8]) -> &[u8]
    ensures { result.now ≡ strip_carriage_return line.now }
{
    match line {
        [front @ .., last] if *last == CARRIAGE_RETURN => front,
        whole => whole,
    }
}

/// The first line of a text, and what follows it. A line ends with a line feed, or with the text. A carriage return directly before the line feed is dropped.
pub fn first_line(text: &[u8]) -> (&[u8], &[u8])
    requires { 0 < length text.now }
    ensures lines { lines text.now ≡ result.0.now ∷ lines result.1.now }
    ensures shorter { length result.1.now < length text.now }
{
    let (line, rest) = text.split_at(place_of(text, LINE_FEED));
    match rest {
        [_, after @ ..] => (without_return(line), after),
        [] => (line, rest),
    }
}

/// Whether a reader skips a line: it is empty or begins with `#`.
pub fn is_passed_over(line: &[u8]) -> bool
    ensures { result ≡ is_passed_over line.now }
{
    match line {
        [] => true,
        [first, ..] => *first == COMMENT,
    }
}
