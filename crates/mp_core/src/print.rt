// Printing outcomes and refusals.
ghost use Rattle.std.specs.Prelude.{◌≡◌, ◌∷◌, [], map, decimal, flat_map};
ghost use Rattle.boot_io.specs.{Line.line_of, Line.spaced, Sink.Puts, Sink.SinkFaultsAfter};
ghost use Rattle.mp_core.specs.OutcomeText.{is_turn, reply_line, replies_text, cell_line, cells_text, record_line, records_text, outcome_text, bad_line};

use crate::event::MpEvent;
use crate::file::MpFile;
use crate::keyword::{keyword_of, keyword_text};
use crate::reply::{MpOutcome, MpReply};
use crate::status::{record_keyword, refused_command, status_text};
use boot_io::{Sink, SinkFault, put_line};
use pi_base::{DECIMAL_LEN, HEXADECIMAL_LEN, Seq, decimal, hexadecimal};

// The first word of the line of a cell.
const CELL: [u8; 4] = *b"cell";

// What is printed for a record without numbers.
const NO_NUMBERS: [u8; 1] = *b"-";

// Writes the line of a keyword and a number.
fn put_numbered<S: Sink>(sink: &mut S, keyword: &[u8], number: u64) -> Result<(), SinkFault>
    ensures text { Puts result (S.text sink.old) (S.text sink.new) (line_of keyword.now (decimal number ∷ [])) }
    ensures cause { SinkFaultsAfter result (S.faults sink.old) (S.faults sink.new) }
{
    let mut digits = [0u8; DECIMAL_LEN];
    let len = decimal(number, &mut digits);
    let (number, _) = digits.split_at(len);
    put_line(sink, keyword, &[number])
}

// Writes the line of a call and its reply.
fn put_reply<S: Sink>(sink: &mut S, event: &MpEvent, reply: MpReply) -> Result<(), SinkFault>
    ensures text { Puts result (S.text sink.old) (S.text sink.new) (reply_line (event.now, reply)) }
    ensures cause { SinkFaultsAfter result (S.faults sink.old) (S.faults sink.new) }
{
    let keyword = keyword_text(keyword_of(event));
    match reply {
        MpReply::Word(status) => put_line(sink, keyword, &[status_text(status)]),
        MpReply::Number(number) => put_numbered(sink, keyword, u64::from(number)),
    }
}

// Whether an event is a turn.
fn is_turn(event: &MpEvent) -> bool
    ensures { result ≡ is_turn event.now }
{
    matches!(event, MpEvent::Turn { .. })
}

// Writes the lines of calls and their replies.
fn put_replies<S: Sink>(
    sink: &mut S,
    events: &[MpEvent],
    replies: &[MpReply],
) -> Result<(), SinkFault>
    ensures text { Puts result (S.text sink.old) (S.text sink.new) (replies_text events.now replies.now) }
    ensures cause { SinkFaultsAfter result (S.faults sink.old) (S.faults sink.new) }
{
    let mut later = events;
    let mut answers = replies;
    'events: while let [event, after @ ..] = later {
        if !is_turn(event) {
            let [reply, behind @ ..] = answers else {
                return Ok(());
            };
            put_reply(sink, event, *reply)?;
            answers = behind;
        }
        later = after;
    }
    Ok(())
}

// Writes the line of a cell.
#[tactic(auto, unfolding(crate::specs::OutcomeText::cell_keyword))]
fn put_cell<S: Sink>(sink: &mut S, index: u64, cell: u64) -> Result<(), SinkFault>
    ensures text { Puts result (S.text sink.old) (S.text sink.new) (cell_line (index, cell)) }
    ensures cause { SinkFaultsAfter result (S.faults sink.old) (S.faults sink.new) }
{
    let mut index_digits = [0u8; DECIMAL_LEN];
    let index_len = decimal(index, &mut index_digits);
    let (index, _) = index_digits.split_at(index_len);
    let mut cell_digits = [0u8; HEXADECIMAL_LEN];
    let cell_len = hexadecimal(cell, &mut cell_digits);
    let (cell, _) = cell_digits.split_at(cell_len);
    put_line(sink, CELL.as_slice(), &[index, cell])
}

// Writes the lines of the cells.
fn put_cells<S: Sink>(sink: &mut S, cells: &[u64]) -> Result<(), SinkFault>
    ensures text { Puts result (S.text sink.old) (S.text sink.new) (cells_text cells.now) }
    ensures cause { SinkFaultsAfter result (S.faults sink.old) (S.faults sink.new) }
{
    'cells: for (index, cell) in cells.iter().enumerate() {
        put_cell(sink, index as u64, *cell)?;
    }
    Ok(())
}

// Writes a number after a space.
fn put_number<S: Sink>(sink: &mut S, number: u64) -> Result<(), SinkFault>
    ensures text { Puts result (S.text sink.old) (S.text sink.new) (spaced (decimal number)) }
    ensures cause { SinkFaultsAfter result (S.faults sink.old) (S.faults sink.new) }
{
    let mut digits = [0u8; DECIMAL_LEN];
    let len = decimal(number, &mut digits);
    let (digits, _) = digits.split_at(len);
    sink.put(b" ")?;
    sink.put(digits)
}

// Writes the numbers of a record, each after a space.
fn put_numbers<S: Sink>(sink: &mut S, numbers: &[u64]) -> Result<(), SinkFault>
    ensures text { Puts result (S.text sink.old) (S.text sink.new) (flat_map spaced (map decimal numbers.now)) }
    ensures cause { SinkFaultsAfter result (S.faults sink.old) (S.faults sink.new) }
{
    'numbers: for number in numbers {
        put_number(sink, *number)?;
    }
    Ok(())
}

// Writes the line of a processor whose record has no numbers.
#[tactic(auto, unfolding(crate::specs::OutcomeText::no_numbers))]
fn put_empty_record<S: Sink>(sink: &mut S, processor: u64) -> Result<(), SinkFault>
    ensures text { Puts result (S.text sink.old) (S.text sink.new) (record_line (processor, [])) }
    ensures cause { SinkFaultsAfter result (S.faults sink.old) (S.faults sink.new) }
{
    let mut digits = [0u8; DECIMAL_LEN];
    let len = decimal(processor, &mut digits);
    let (processor, _) = digits.split_at(len);
    put_line(sink, record_keyword(), &[processor, NO_NUMBERS.as_slice()])
}

// Writes the line of a processor's record, number by number, since there can be many.
fn put_record<S: Sink>(sink: &mut S, processor: u64, numbers: &[u64]) -> Result<(), SinkFault>
    ensures text { Puts result (S.text sink.old) (S.text sink.new) (record_line (processor, numbers.now)) }
    ensures cause { SinkFaultsAfter result (S.faults sink.old) (S.faults sink.new) }
{
    if numbers.is_empty() {
        return put_empty_record(sink, processor);
    }
    sink.put(record_keyword())?;
    put_number(sink, processor)?;
    put_numbers(sink, numbers)?;
    sink.put(b"\n")
}

// Writes the lines of the records.
fn put_records<S: Sink>(sink: &mut S, records: &[Seq<u64>]) -> Result<(), SinkFault>
    ensures text { Puts result (S.text sink.old) (S.text sink.new) (records_text records.now) }
    ensures cause { SinkFaultsAfter result (S.faults sink.old) (S.faults sink.new) }
{
    'records: for (processor, numbers) in records.iter().enumerate() {
        put_record(sink, processor as u64, numbers.as_slice())?;
    }
    Ok(())
}

/// Writes the outcome of a file's events: a line for each call, with its first word and its reply; then `cell` with the index and the content of each cell;
/// then `record` with the number of each processor and the numbers of its record, or `-`.
pub fn put_outcome<S: Sink>(
    sink: &mut S,
    file: &MpFile,
    outcome: &MpOutcome,
) -> Result<(), SinkFault>
    ensures text { Puts result (S.text sink.old) (S.text sink.new) (outcome_text file.now.events outcome.now) }
    ensures cause { SinkFaultsAfter result (S.faults sink.old) (S.faults sink.new) }
{
    put_replies(sink, file.events.as_slice(), outcome.replies.as_slice())?;
    put_cells(sink, outcome.cells.as_slice())?;
    put_records(sink, outcome.records.as_slice())
}

/// Writes the line that refuses an MP file, with the number of its first bad line, from 1.
pub fn put_bad_line<S: Sink>(sink: &mut S, line: u32) -> Result<(), SinkFault>
    ensures text { Puts result (S.text sink.old) (S.text sink.new) (bad_line line) }
    ensures cause { SinkFaultsAfter result (S.faults sink.old) (S.faults sink.new) }
{
    put_numbered(sink, refused_command(), u64::from(line))
}
