// The loop that writes a whole piece, at any writer of std.
ghost use Rattle.boot_io.specs.Sink.{Puts};

use crate::SinkFault;
use crate::again::{TRIES, may_get_through};
use std::io::Write;

/// Writes a whole piece. It fails if the writer returns an error or takes nothing; a prefix of the piece is then written. An interrupted call, or one that
/// would have blocked, is made again. It allocates nothing.
pub fn write_whole<W: Write>(writer: &mut W, piece: &[u8]) -> Result<(), SinkFault>
    // The text is what the writer holds, by its own contract.
    ensures { Puts result (W.contents writer.old) (W.contents writer.new) piece.now }
{
    let mut rest = piece;
    let mut tries = TRIES;
    'pieces: while !rest.is_empty() {
        match writer.write(rest) {
            Ok(0) => return Err(SinkFault),
            Ok(count) => {
                let (_, after) = rest.split_at(count);
                rest = after;
            }
            Err(fault) if tries > 0 && may_get_through(&fault) => tries -= 1,
            Err(_) => return Err(SinkFault),
        }
    }
    Ok(())
}
