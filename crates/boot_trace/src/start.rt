// The lines of a start.
ghost use Rattle.boot_io.specs.Sink.{Puts, SinkFaultsAfter};
ghost use Rattle.boot_model.specs.Text.{text_of};
ghost use Rattle.boot_trace.specs.StartLines.{started_lines};

use crate::line::put_made;
use boot_io::{Sink, SinkFault};
use boot_model::Line;
use pi_base::Word;

/// Puts the lines of a module's start, by whether its script runs: one without blocks ends at once. Where the sink fails, a prefix of their text was put.
pub fn put_start<S: Sink>(sink: &mut S, line: Line, runs: bool) -> Result<(), SinkFault>
    ensures text { Puts result (S.text sink.old) (S.text sink.new) (text_of (started_lines line runs)) }
    ensures cause { SinkFaultsAfter result (S.faults sink.old) (S.faults sink.new) }
{
    put_made(sink, line)?;
    if runs {
        return Ok(());
    }
    put_made(
        sink,
        Line::End {
            status: Word::Success,
        },
    )
}
