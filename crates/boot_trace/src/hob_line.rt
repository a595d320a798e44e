//! The front of a HOB's line, and its bytes in pieces.
ghost use Rattle.std.specs.Prelude.{[], ◌∷◌, ◌++◌, ◌≤◌, length, decimal};
ghost use Rattle.hex.specs.Hex.{encode_lower};
ghost use Rattle.boot_io.specs.Sink.{Puts, SinkFaultsAfter};

use crate::number_word::decimal_word;
use boot_io::{Sink, SinkFault};

// How many bytes a piece shows.
pub(crate) const PIECE_LEN: usize = 64;

// A piece of the bytes, in hexadecimal.
pub(crate) fn put_piece<S: Sink>(sink: &mut S, bytes: &[u8]) -> Result<(), SinkFault>
    requires { length bytes.now ≤ PIECE_LEN }
    ensures text { Puts result (S.text sink.old) (S.text sink.new) (encode_lower bytes.now) }
    ensures cause { SinkFaultsAfter result (S.faults sink.old) (S.faults sink.new) }
{
    let mut digits = [0u8; 2 * PIECE_LEN];
    let (text, _) = digits.split_at_mut(2 * bytes.len());
    hex::encode_to_slice(bytes, text).unwrap();
    sink.put(text)
}

// Two pieces, one after the other.
fn put_both<S: Sink>(sink: &mut S, first: &[u8], second: &[u8]) -> Result<(), SinkFault>
    ensures text { Puts result (S.text sink.old) (S.text sink.new) (first.now ++ second.now) }
    ensures cause { SinkFaultsAfter result (S.faults sink.old) (S.faults sink.new) }
{
    match sink.put(first) {
        Ok(()) => sink.put(second),
        Err(SinkFault) => Err(SinkFault),
    }
}

// A keyword and a type, with a space behind each.
pub(crate) fn put_front<S: Sink>(sink: &mut S, keyword: &[u8], kind: u16) -> Result<(), SinkFault>
    ensures text { Puts result (S.text sink.old) (S.text sink.new) ((keyword.now ++ 32 ∷ []) ++ (decimal kind ++ 32 ∷ [])) }
    ensures cause { SinkFaultsAfter result (S.faults sink.old) (S.faults sink.new) }
{
    match put_both(sink, keyword, b" ") {
        Ok(()) => put_both(sink, decimal_word(u64::from(kind)).as_slice(), b" "),
        Err(SinkFault) => Err(SinkFault),
    }
}
