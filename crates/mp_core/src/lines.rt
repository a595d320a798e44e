// The lines of events.
ghost use Rattle.std.specs.Prelude.{◌≡◌, ◌+◌, ◌<◌, ◌^◌, [], length, map, Some, IfOk, IfErr, OnOk};
ghost use Rattle.line_words.specs.Line.{lines};
ghost use Rattle.mp_core.specs.{Calls.AreEvents, FileText.numbered_from, FileText.spelled, FileFaults.IsEventFault, FileFaults.TakesLine};

use crate::event::MpEvent;
use crate::event_line::read_event;
use crate::fault::MpFault;
use line_words::{first_line, is_passed_over};
use pi_base::Seq;
use std::alloc::Global;

// Takes a line with its number.
fn take_line(
    events: &mut Seq<MpEvent>,
    number: u32,
    line: &[u8],
    processors: u32,
    cells: u32,
) -> Result<(), MpFault>
    ensures line { TakesLine processors cells events.old number line.now result events.new }
    ensures fits { OnOk result (AreEvents processors cells events.old → AreEvents processors cells events.new) }
{
    if is_passed_over(line) {
        return Ok(());
    }
    match read_event(events.alloc(), line, processors, cells) {
        Ok(Some(event)) => match events.push(event) {
            Ok(()) => Ok(()),
            Err(_) => Err(MpFault::Memory),
        },
        Ok(None) => Err(MpFault::Bad { line: number }),
        Err(_) => Err(MpFault::Memory),
    }
}

// Puts the events of lines into an empty list.
fn take_lines(
    events: &mut Seq<MpEvent>,
    text: &[u8],
    first: u32,
    processors: u32,
    cells: u32,
) -> Result<(), MpFault>
    requires none { events.old ≡ [] }
    requires first { first + length text.now < 2 ^ 32 }
    ensures events { OnOk result (
        spelled processors cells (numbered_from first (lines text.now)) ≡ map (λ event. Some event) events.new) }
    ensures fits { OnOk result (AreEvents processors cells events.new) }
    ensures fault { IfErr result (IsEventFault processors cells (numbered_from first (lines text.now))) }
{
    let mut rest = text;
    let mut number = first;
    'lines: while !rest.is_empty() {
        let (line, after) = first_line(rest);
        match take_line(events, number, line, processors, cells) {
            Ok(()) => {}
            Err(fault) => return Err(fault),
        }
        number += 1;
        rest = after;
    }
    Ok(())
}

// Reads the events of lines, of which the first has this number.
pub(crate) fn read_events(
    alloc: Global,
    text: &[u8],
    first: u32,
    processors: u32,
    cells: u32,
) -> Result<Seq<MpEvent>, MpFault>
    requires { first + length text.now < 2 ^ 32 }
    ensures events { IfOk result (λ events.
        spelled processors cells (numbered_from first (lines text.now)) ≡ map (λ event. Some event) events) }
    ensures fits { IfOk result (AreEvents processors cells) }
    ensures fault { IfErr result (IsEventFault processors cells (numbered_from first (lines text.now))) }
{
    let mut events = Seq::new(alloc);
    match take_lines(&mut events, text, first, processors, cells) {
        Ok(()) => Ok(events),
        Err(fault) => {
            drop(events);
            Err(fault)
        }
    }
}
