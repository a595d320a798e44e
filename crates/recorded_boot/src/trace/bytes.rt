// Places in bytes.
ghost use Rattle.std.specs.Prelude.{◌≡◌, ◌≤◌, ◌↔◌, Some, length, take, drop, slice_get, IsTrue, MatchOption};
ghost use Rattle.boot_io.specs.Faults.{IsPrefix};
ghost use Rattle.recorded_boot.specs.Lines.{BeginsWithLine, Lacks, feeds_in};
ghost use Rattle.recorded_boot.specs.Agreement.{IsOtherAt};

pub(crate) const LINE_FEED: u8 = b'\n';

/// The bytes from a place on.
pub(crate) fn behind(bytes: &[u8], at: usize) -> &[u8]
    requires { at ≤ length bytes.now }
    ensures { result.now ≡ drop at bytes.now }
{
    let (_, rest) = bytes.split_at(at);
    rest
}

/// The bytes before a place.
pub(crate) fn before(bytes: &[u8], at: usize) -> &[u8]
    requires { at ≤ length bytes.now }
    ensures { result.now ≡ take at bytes.now }
{
    let (front, _) = bytes.split_at(at);
    front
}

// Whether this byte is at a place.
fn has_byte(bytes: &[u8], at: usize, byte: u8) -> bool
    ensures { IsTrue result ↔ (slice_get bytes.now at ≡ Some byte) }
{
    match bytes.get(at) {
        Some(other) => *other == byte,
        None => false,
    }
}

/// The index of the first byte in which a piece differs from the bytes. None if the bytes begin with the piece.
pub(crate) fn first_other(bytes: &[u8], piece: &[u8]) -> Option<usize>
    ensures { MatchOption result (IsPrefix piece.now bytes.now) (IsOtherAt bytes.now piece.now) }
{
    if bytes.starts_with(piece) {
        return None;
    }
    'piece: for (place, byte) in piece.iter().enumerate() {
        if !has_byte(bytes, place, *byte) {
            return Some(place);
        }
    }
    None
}

/// The bytes before the first line feed. None if there is no line feed.
pub(crate) fn first_line(bytes: &[u8]) -> Option<&[u8]>
    ensures { MatchOption result (Lacks bytes.now) (λ line. BeginsWithLine bytes.now line.now) }
{
    'search: for (place, byte) in bytes.iter().enumerate() {
        if *byte == LINE_FEED {
            return Some(before(bytes, place));
        }
    }
    None
}

/// How many line feeds there are.
pub(crate) fn count_feeds(bytes: &[u8]) -> usize
    ensures count { result ≡ feeds_in bytes.now }
    ensures within { result ≤ length bytes.now }
{
    let mut count = 0;
    'bytes: for byte in bytes {
        if *byte == LINE_FEED {
            count += 1;
        }
    }
    count
}
