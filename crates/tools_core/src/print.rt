// Printing a report.
ghost use Rattle.std.specs.Prelude.{◌≡◌};
ghost use Rattle.boot_io.specs.Sink.{Puts, SinkFaultsAfter};
ghost use Rattle.tools_core.specs.Refusals.{bytes_line, cause_text, malformed_line, malformed_text, no_line, refused_bytes, refused_text, refused_twins, text_line, twins_line, verdict_line};
ghost use Rattle.tools_core.specs.ReportText.{report_text};

use crate::follow_print::{put_followed, put_order, put_passed};
use crate::report::Report;
use crate::source_refusal::put_source;
use act_code::{ActCause, ActFault};
use boot_io::{Sink, SinkFault, put_line};
use boot_model::Line;
use boot_trace::{decimal_word, put_made, put_refused_file, put_refused_long};
use gcd_map::{put_answers, put_command_refusal, put_hobs_refusal, put_map};
use mp_core::{put_bad_line, put_outcome};
use recorded_boot::trace::Verdict;

// The first words of lines.
#[tactic(auto, unfolding(crate::specs::Refusals::refused_twins))]
fn refused_twins() -> &'static [u8]
    ensures { result.now ≡ refused_twins }
{
    b"refused twins"
}

#[tactic(auto, unfolding(crate::specs::Refusals::refused_text))]
pub(crate) fn refused_text() -> &'static [u8]
    ensures { result.now ≡ refused_text }
{
    b"refused text"
}

#[tactic(auto, unfolding(crate::specs::Refusals::refused_bytes))]
fn refused_bytes() -> &'static [u8]
    ensures { result.now ≡ refused_bytes }
{
    b"refused bytes"
}

// The cause of bytes that are no expression.
#[tactic(auto, unfolding(crate::specs::Refusals::malformed_text))]
fn malformed_text() -> &'static [u8]
    ensures { result.now ≡ malformed_text }
{
    b"Malformed"
}

// The word of a script's cause.
#[tactic(auto, unfolding(crate::specs::Refusals::cause_text))]
fn cause_word(cause: ActCause) -> &'static [u8]
    ensures { result.now ≡ cause_text cause }
{
    match cause {
        ActCause::Magic => b"Magic",
        ActCause::Version => b"Version",
        ActCause::Phase => b"Phase",
        ActCause::Count => b"Count",
        ActCause::Block => b"Block",
        ActCause::Action => b"Action",
        ActCause::Jump => b"Jump",
        ActCause::Index => b"Index",
        ActCause::Memory => b"Memory",
    }
}

// The refusal of a volume with two modules of one name.
fn put_twins<S: Sink>(sink: &mut S, volume: u32) -> Result<(), SinkFault>
    ensures text { Puts result (S.text sink.old) (S.text sink.new) (twins_line volume) }
    ensures cause { SinkFaultsAfter result (S.faults sink.old) (S.faults sink.new) }
{
    let volume = decimal_word(u64::from(volume));
    put_line(sink, refused_twins(), &[volume.as_slice()])
}

// That a line is not as it should be.
#[tactic(auto, unfolding(crate::specs::Refusals::no_text))]
pub(crate) fn put_no<S: Sink>(sink: &mut S, line: u32) -> Result<(), SinkFault>
    ensures text { Puts result (S.text sink.old) (S.text sink.new) (no_line line) }
    ensures cause { SinkFaultsAfter result (S.faults sink.old) (S.faults sink.new) }
{
    let line = decimal_word(u64::from(line));
    put_line(sink, b"no", &[line.as_slice()])
}

// The verdict on a trace.
#[tactic(auto, unfolding(crate::specs::Refusals::yes_text))]
fn put_verdict<S: Sink>(sink: &mut S, verdict: Verdict) -> Result<(), SinkFault>
    ensures text { Puts result (S.text sink.old) (S.text sink.new) (verdict_line verdict) }
    ensures cause { SinkFaultsAfter result (S.faults sink.old) (S.faults sink.new) }
{
    match verdict {
        Verdict::Yes => put_line(sink, b"yes", &[]),
        Verdict::No { line } => put_no(sink, line),
    }
}

// The refusal of a text, by its line.
fn put_text<S: Sink>(sink: &mut S, line: u32) -> Result<(), SinkFault>
    ensures text { Puts result (S.text sink.old) (S.text sink.new) (text_line line) }
    ensures cause { SinkFaultsAfter result (S.faults sink.old) (S.faults sink.new) }
{
    let line = decimal_word(u64::from(line));
    put_line(sink, refused_text(), &[line.as_slice()])
}

// The refusal of bytes that are no expression.
fn put_malformed<S: Sink>(sink: &mut S, at: u32) -> Result<(), SinkFault>
    ensures text { Puts result (S.text sink.old) (S.text sink.new) (malformed_line at) }
    ensures cause { SinkFaultsAfter result (S.faults sink.old) (S.faults sink.new) }
{
    let at = decimal_word(u64::from(at));
    put_line(sink, refused_bytes(), &[malformed_text(), at.as_slice()])
}

// The refusal of bytes that are no script.
fn put_bytes<S: Sink>(sink: &mut S, fault: &ActFault) -> Result<(), SinkFault>
    ensures text { Puts result (S.text sink.old) (S.text sink.new) (bytes_line fault.now.cause fault.now.at) }
    ensures cause { SinkFaultsAfter result (S.faults sink.old) (S.faults sink.new) }
{
    let at = decimal_word(u64::from(fault.at));
    put_line(
        sink,
        refused_bytes(),
        &[cause_word(fault.cause), at.as_slice()],
    )
}

/// Writes what a report says.
#[tactic(auto, unfolding(crate::specs::Refusals::usage_line, crate::specs::Refusals::file_line, crate::specs::Refusals::long_line, crate::specs::Refusals::plan_line, crate::specs::Refusals::image_line, crate::specs::Refusals::end_line, crate::specs::Refusals::refused_text_long))]
pub(crate) fn put_report<S: Sink>(sink: &mut S, report: &Report) -> Result<(), SinkFault>
    ensures text { Puts result (S.text sink.old) (S.text sink.new) (report_text report.now) }
    ensures cause { SinkFaultsAfter result (S.faults sink.old) (S.faults sink.new) }
{
    match report {
        Report::Usage => put_made(sink, Line::RefusedUsage),
        Report::NoFile(name) => put_refused_file(sink, name.as_slice()),
        Report::Long(name) => put_refused_long(sink, name.as_slice()),
        Report::Plan(fault) => {
            let line = fault.line;
            let cause = fault.cause;
            put_made(sink, Line::RefusedPlan { line, cause })
        }
        Report::Image(fault) => {
            let volume = fault.volume;
            let at = fault.at;
            let cause = fault.cause;
            put_made(sink, Line::RefusedImage { volume, at, cause })
        }
        Report::Twins(volume) => put_twins(sink, *volume),
        Report::Verdict(verdict) => put_verdict(sink, *verdict),
        Report::Order(line) => put_order(sink, *line),
        Report::Followed { lines, followed } => put_followed(sink, lines.as_slice(), followed),
        Report::Passed { lines, passed } => put_passed(sink, lines.as_slice(), passed),
        Report::Hobs(fault) => put_hobs_refusal(sink, *fault),
        Report::Command(line) => put_command_refusal(sink, *line),
        Report::Event(line) => put_bad_line(sink, *line),
        Report::Text(line) => put_text(sink, *line),
        Report::Source(fault) => put_source(sink, *fault),
        Report::TextLong => put_line(sink, b"refused text long", &[]),
        Report::Malformed(at) => put_malformed(sink, *at),
        Report::Bytes(fault) => put_bytes(sink, fault),
        Report::Map { steps, map } => {
            put_answers(sink, steps.as_slice())?;
            put_map(sink, map.map())
        }
        Report::Mp { file, outcome } => put_outcome(sink, file, outcome),
        Report::Ended(end) => put_made(sink, Line::Result { outcome: *end }),
        Report::Answer(text) => sink.put(text.as_slice()),
    }
}
