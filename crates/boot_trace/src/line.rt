//! A line of any form.
ghost use Rattle.boot_io.specs.Sink.{Puts, SinkFaultsAfter};
ghost use Rattle.boot_model.specs.Text.{line_text, text_of, refused_file_text, refused_long_text};

use crate::gather::put_words;
use crate::keywords::{REFUSED_FILE, REFUSED_LONG};
use crate::piece::Piece;
use crate::word_list::put_form;
use boot_io::{Sink, SinkFault};
use boot_model::Line;

/// Puts a line. Where the sink fails, a prefix of its text was put.
pub fn put<S: Sink>(sink: &mut S, line: &Line) -> Result<(), SinkFault>
    ensures text { Puts result (S.text sink.old) (S.text sink.new) (line_text line.now) }
    ensures cause { SinkFaultsAfter result (S.faults sink.old) (S.faults sink.new) }
{
    put_form(sink, line)
}

/// Puts a line, which is dropped here, once for all who make one. Where the sink fails, a prefix of its text was put.
pub fn put_made<S: Sink>(sink: &mut S, line: Line) -> Result<(), SinkFault>
    ensures text { Puts result (S.text sink.old) (S.text sink.new) (line_text line) }
    ensures cause { SinkFaultsAfter result (S.faults sink.old) (S.faults sink.new) }
{
    put(sink, &line)
}

/// Puts lines, one after the other.
pub fn put_all<S: Sink>(sink: &mut S, lines: &[Line]) -> Result<(), SinkFault>
    ensures text { Puts result (S.text sink.old) (S.text sink.new) (text_of lines.now) }
    ensures cause { SinkFaultsAfter result (S.faults sink.old) (S.faults sink.new) }
{
    for line in lines {
        put(sink, line)?;
    }
    Ok(())
}

/// Puts the refusal that names a file that could not be read, from where the name stands. Where the sink fails, a prefix of its text was put.
#[tactic(auto, unfolding(boot_model::specs::Text::keyword))]
pub fn put_refused_file<S: Sink>(sink: &mut S, name: &[u8]) -> Result<(), SinkFault>
    ensures text { Puts result (S.text sink.old) (S.text sink.new) (refused_file_text name.now) }
    ensures cause { SinkFaultsAfter result (S.faults sink.old) (S.faults sink.new) }
{
    put_words(sink, REFUSED_FILE, &[Piece::Text(name)])
}

/// Puts the refusal that names a file that is too long, from where the name stands. Where the sink fails, a prefix of its text was put.
#[tactic(auto, unfolding(boot_model::specs::Text::keyword))]
pub fn put_refused_long<S: Sink>(sink: &mut S, name: &[u8]) -> Result<(), SinkFault>
    ensures text { Puts result (S.text sink.old) (S.text sink.new) (refused_long_text name.now) }
    ensures cause { SinkFaultsAfter result (S.faults sink.old) (S.faults sink.new) }
{
    put_words(sink, REFUSED_LONG, &[Piece::Text(name)])
}
