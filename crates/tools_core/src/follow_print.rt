// Printing how a boot in an order of starts ended.
ghost use Rattle.std.specs.Prelude.{◌≡◌, ◌++◌, flat_map};
ghost use Rattle.boot_io.specs.{Sink.Puts, Sink.SinkFaultsAfter, Line.line_of};
ghost use Rattle.recorded_boot.specs.declared.follow.against.Against.TheVariants.{NotEligible};
ghost use Rattle.tools_core.specs.FollowText.{against_line, guid_word, last_text, not_eligible_text, order_line, passed_text, start_words};
ghost use Rattle.tools_core.specs.Refusals.{no_text};

use crate::print::put_no;
use boot_io::{Sink, SinkFault, put_line};
use boot_trace::decimal_word;
use pi_base::Guid;
use recorded_boot::follow::{Against, Followed};
use recorded_boot::order::Start;
use recorded_boot::passes::Passed;

/// The refusal of an order, by its line.
#[tactic(auto, unfolding(crate::specs::FollowText::refused_order))]
pub(crate) fn put_order<S: Sink>(sink: &mut S, line: u32) -> Result<(), SinkFault>
    ensures text { Puts result (S.text sink.old) (S.text sink.new) (order_line line) }
    ensures cause { SinkFaultsAfter result (S.faults sink.old) (S.faults sink.new) }
{
    let line = decimal_word(u64::from(line));
    put_line(sink, b"refused order", &[line.as_slice()])
}

// A GUID after a space.
fn put_guid<S: Sink>(sink: &mut S, guid: &Guid) -> Result<(), SinkFault>
    ensures text { Puts result (S.text sink.old) (S.text sink.new) (guid_word guid.now) }
    ensures cause { SinkFaultsAfter result (S.faults sink.old) (S.faults sink.new) }
{
    sink.put(b" ")?;
    sink.put(guid.to_text().as_slice())
}

// GUIDs, each after a space.
fn put_guids<S: Sink>(sink: &mut S, guids: &[Guid]) -> Result<(), SinkFault>
    ensures text { Puts result (S.text sink.old) (S.text sink.new) (flat_map guid_word guids.now) }
    ensures cause { SinkFaultsAfter result (S.faults sink.old) (S.faults sink.new) }
{
    'put: for guid in guids {
        put_guid(sink, guid)?;
    }
    Ok(())
}

// The words before the missing GUIDs.
#[tactic(auto, unfolding(crate::specs::FollowText::not_eligible_text))]
fn not_eligible_text() -> &'static [u8]
    ensures { result.now ≡ not_eligible_text }
{
    b"not eligible"
}

// Prints the missing GUIDs.
fn put_lacking<S: Sink>(sink: &mut S, guids: &[Guid]) -> Result<(), SinkFault>
    ensures text { Puts result (S.text sink.old) (S.text sink.new) (against_line (NotEligible guids.now)) }
    ensures cause { SinkFaultsAfter result (S.faults sink.old) (S.faults sink.new) }
{
    sink.put(not_eligible_text())?;
    put_guids(sink, guids)?;
    sink.put(b"\n")
}

// Prints why a start is not possible.
#[tactic(auto, unfolding(crate::specs::FollowText::unknown_text, crate::specs::FollowText::started_text))]
fn put_against<S: Sink>(sink: &mut S, against: &Against) -> Result<(), SinkFault>
    ensures text { Puts result (S.text sink.old) (S.text sink.new) (against_line against.now) }
    ensures cause { SinkFaultsAfter result (S.faults sink.old) (S.faults sink.new) }
{
    match against {
        Against::Unknown => put_line(sink, b"unknown", &[]),
        Against::Started => put_line(sink, b"started", &[]),
        Against::NotEligible(guids) => put_lacking(sink, guids.as_slice()),
    }
}

// What is printed after the lines of a boot.
#[tactic(auto, unfolding(crate::specs::FollowText::stop_text))]
fn put_last<S: Sink>(sink: &mut S, followed: &Followed) -> Result<(), SinkFault>
    ensures text { Puts result (S.text sink.old) (S.text sink.new) (last_text followed.now) }
    ensures cause { SinkFaultsAfter result (S.faults sink.old) (S.faults sink.new) }
{
    match followed {
        Followed::Ended(_) => Ok(()),
        Followed::Stopped => put_line(sink, b"stop", &[]),
        Followed::No { line, against } => {
            put_no(sink, *line)?;
            put_against(sink, against)
        }
    }
}

/// Prints the lines of a boot in an order of starts, and how it ended.
pub(crate) fn put_followed<S: Sink>(
    sink: &mut S,
    lines: &[u8],
    followed: &Followed,
) -> Result<(), SinkFault>
    ensures text { Puts result (S.text sink.old) (S.text sink.new) (lines.now ++ last_text followed.now) }
    ensures cause { SinkFaultsAfter result (S.faults sink.old) (S.faults sink.new) }
{
    sink.put(lines)?;
    put_last(sink, followed)
}

// Whose turn it is.
#[tactic(auto, unfolding(crate::specs::Refusals::no_text, crate::specs::FollowText::in_dxe_text))]
fn put_turn<S: Sink>(sink: &mut S, start: Option<Start>) -> Result<(), SinkFault>
    ensures text { Puts result (S.text sink.old) (S.text sink.new) (line_of no_text (start_words start)) }
    ensures cause { SinkFaultsAfter result (S.faults sink.old) (S.faults sink.new) }
{
    match start {
        Some(start) => {
            let volume = decimal_word(u64::from(start.volume));
            let name = start.name.to_text();
            put_line(sink, b"no", &[b"dxe", volume.as_slice(), name.as_slice()])
        }
        None => put_line(sink, b"no", &[]),
    }
}

// What is printed after the lines of a boot in the order of EDK2's dispatchers.
fn put_pass_end<S: Sink>(sink: &mut S, passed: &Passed) -> Result<(), SinkFault>
    ensures text { Puts result (S.text sink.old) (S.text sink.new) (passed_text passed.now) }
    ensures cause { SinkFaultsAfter result (S.faults sink.old) (S.faults sink.new) }
{
    match passed {
        Passed::Ended(_) => Ok(()),
        Passed::No(turn) => {
            put_turn(sink, turn.start)?;
            put_lacking(sink, turn.lacks.as_slice())
        }
    }
}

/// Prints the lines of a boot in the order of EDK2's dispatchers, and whose turn it is where it goes no further.
pub(crate) fn put_passed<S: Sink>(
    sink: &mut S,
    lines: &[u8],
    passed: &Passed,
) -> Result<(), SinkFault>
    ensures text { Puts result (S.text sink.old) (S.text sink.new) (lines.now ++ passed_text passed.now) }
    ensures cause { SinkFaultsAfter result (S.faults sink.old) (S.faults sink.new) }
{
    sink.put(lines)?;
    put_pass_end(sink, passed)
}
