// Lines that are put word by word, with few calls of the sink.
ghost use Rattle.std.specs.Prelude.{flat_map};
ghost use Rattle.boot_io.specs.Line.{Gathers, line_of, spaced, words_now};
ghost use Rattle.boot_io.specs.Sink.{Puts, SinkFaultsAfter};

use crate::{Sink, SinkFault};
use arrayvec::ArrayVec;

/// How many bytes are gathered before they are put; a longer piece is put by itself.
pub const LINE_LEN: usize = 256;

/// What is to be put next.
pub type Gathered = ArrayVec<u8, LINE_LEN>;

/// Takes a piece into the line, or puts the line and the piece where it has no room. Where the sink fails, a prefix of both was put. It takes no memory.
pub fn gather<S: Sink>(sink: &mut S, line: &mut Gathered, piece: &[u8]) -> Result<(), SinkFault>
    ensures text { Gathers result (S.text sink.old) (S.text sink.new) line.old.items line.new.items piece.now }
    ensures cause { SinkFaultsAfter result (S.faults sink.old) (S.faults sink.new) }
{
    match line.try_extend_from_slice(piece) {
        Ok(()) => return Ok(()),
        Err(_) => {}
    }
    sink.put(line.as_slice())?;
    line.clear();
    sink.put(piece)
}

// Takes a space and a word.
fn gather_word<S: Sink>(sink: &mut S, line: &mut Gathered, word: &[u8]) -> Result<(), SinkFault>
    ensures text { Gathers result (S.text sink.old) (S.text sink.new) line.old.items line.new.items (spaced word.now) }
    ensures cause { SinkFaultsAfter result (S.faults sink.old) (S.faults sink.new) }
{
    gather(sink, line, b" ")?;
    gather(sink, line, word)
}

// Takes words, each after a space.
fn gather_words<S: Sink>(
    sink: &mut S,
    line: &mut Gathered,
    words: &[&[u8]],
) -> Result<(), SinkFault>
    ensures text { Gathers result (S.text sink.old) (S.text sink.new) line.old.items line.new.items
        (flat_map spaced (words_now words.now)) }
    ensures cause { SinkFaultsAfter result (S.faults sink.old) (S.faults sink.new) }
{
    for word in words {
        gather_word(sink, line, word)?;
    }
    Ok(())
}

/// Puts a line: a keyword, each word after a space, and a line feed. It is one call of the sink where the words are short. Where the sink fails, a prefix of the line was put. It takes no memory.
pub fn put_line<S: Sink>(sink: &mut S, keyword: &[u8], words: &[&[u8]]) -> Result<(), SinkFault>
    ensures text { Puts result (S.text sink.old) (S.text sink.new) (line_of keyword.now (words_now words.now)) }
    ensures cause { SinkFaultsAfter result (S.faults sink.old) (S.faults sink.new) }
{
    let mut line = ArrayVec::new();
    gather(sink, &mut line, keyword)?;
    gather_words(sink, &mut line, words)?;
    gather(sink, &mut line, b"\n")?;
    sink.put(line.as_slice())
}
