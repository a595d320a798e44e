//! Words that are gathered in a line, so that the sink is called once.
ghost use Rattle.std.specs.Prelude.{◌≤◌, length, flat_map};
ghost use Rattle.hex.specs.Hex.{encode_lower};
ghost use Rattle.boot_io.specs.Line.{Gathers, line_of, spaced};
ghost use Rattle.boot_io.specs.Sink.{Puts, SinkFaultsAfter};
ghost use Rattle.boot_trace.specs.Pieces.{piece_text, piece_texts};

use crate::number_word::{byte_word, decimal_word, expression_word, hexadecimal_word};
use crate::piece::Piece;
use arrayvec::ArrayVec;
use boot_io::{Gathered, Sink, SinkFault, gather};

// How many bytes are encoded at once.
pub(crate) const ENCODED_LEN: usize = 64;

// Takes few bytes, in hexadecimal.
fn gather_encoded<S: Sink>(sink: &mut S, line: &mut Gathered, bytes: &[u8]) -> Result<(), SinkFault>
    requires { length bytes.now ≤ ENCODED_LEN }
    ensures text { Gathers result (S.text sink.old) (S.text sink.new) line.old.items line.new.items (encode_lower bytes.now) }
    ensures cause { SinkFaultsAfter result (S.faults sink.old) (S.faults sink.new) }
{
    let mut digits = [0u8; 2 * ENCODED_LEN];
    let (text, _) = digits.split_at_mut(2 * bytes.len());
    hex::encode_to_slice(bytes, text).unwrap();
    gather(sink, line, text)
}

// Takes bytes, in hexadecimal.
fn gather_bytes<S: Sink>(sink: &mut S, line: &mut Gathered, bytes: &[u8]) -> Result<(), SinkFault>
    ensures text { Gathers result (S.text sink.old) (S.text sink.new) line.old.items line.new.items (encode_lower bytes.now) }
    ensures cause { SinkFaultsAfter result (S.faults sink.old) (S.faults sink.new) }
{
    let mut rest = bytes;
    'parts: while rest.len() > ENCODED_LEN {
        let (part, after) = rest.split_at(ENCODED_LEN);
        gather_encoded(sink, line, part)?;
        rest = after;
    }
    gather_encoded(sink, line, rest)
}

// Takes a word.
fn gather_piece<S: Sink>(sink: &mut S, line: &mut Gathered, piece: Piece) -> Result<(), SinkFault>
    ensures text { Gathers result (S.text sink.old) (S.text sink.new) line.old.items line.new.items (piece_text piece.entry) }
    ensures cause { SinkFaultsAfter result (S.faults sink.old) (S.faults sink.new) }
{
    match piece {
        Piece::Text(text) => gather(sink, line, text),
        Piece::Number(number) => gather(sink, line, decimal_word(u64::from(number)).as_slice()),
        Piece::Decimal(number) => gather(sink, line, decimal_word(number).as_slice()),
        Piece::Hexadecimal(number) => gather(sink, line, hexadecimal_word(number).as_slice()),
        Piece::Name(name) => gather(sink, line, &name.to_text()),
        Piece::Byte(byte) => gather(sink, line, &byte_word(byte)),
        Piece::Bytes(bytes) => gather_bytes(sink, line, bytes),
        Piece::Expression(expression) => gather(sink, line, expression_word(expression).as_slice()),
    }
}

// Takes words, each after a space.
fn gather_words<S: Sink>(
    sink: &mut S,
    line: &mut Gathered,
    words: &[Piece],
) -> Result<(), SinkFault>
    ensures text { Gathers result (S.text sink.old) (S.text sink.new) line.old.items line.new.items
        (flat_map spaced (piece_texts words.now)) }
    ensures cause { SinkFaultsAfter result (S.faults sink.old) (S.faults sink.new) }
{
    for word in words {
        gather(sink, line, b" ")?;
        gather_piece(sink, line, *word)?;
    }
    Ok(())
}

// Puts a line: a keyword, each word after a space, and a line feed. It is one call of the sink where the words are short.
pub(crate) fn put_words<S: Sink>(
    sink: &mut S,
    keyword: &[u8],
    words: &[Piece],
) -> Result<(), SinkFault>
    ensures text { Puts result (S.text sink.old) (S.text sink.new) (line_of keyword.now (piece_texts words.now)) }
    ensures cause { SinkFaultsAfter result (S.faults sink.old) (S.faults sink.new) }
{
    let mut line = ArrayVec::new();
    gather(sink, &mut line, keyword)?;
    gather_words(sink, &mut line, words)?;
    gather(sink, &mut line, b"\n")?;
    sink.put(line.as_slice())
}
