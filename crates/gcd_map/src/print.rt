// Printing answers, the map and refusals.
ghost use Rattle.std.specs.Prelude.{◌≡◌};
ghost use Rattle.boot_io.specs.Sink.{Puts, SinkFaultsAfter};
ghost use Rattle.gcd_map.specs.MapText.{refused_hobs, refused_command, answer_line, range_line, answers_text, map_text, hobs_refusal, command_refusal};

use crate::command::Command;
use crate::fault::GcdFault;
use crate::perform::Answer;
use crate::range::GcdRange;
use crate::text_word::{cause_word, kind_word, name_word, refusal_word, state_word};
use boot_io::{Sink, SinkFault, put_line};
use pi_base::{DECIMAL_LEN, HEXADECIMAL_LEN, decimal, hexadecimal};

// The word of a command that was done.
const SUCCESS: [u8; 7] = *b"Success";

// The first word of the line of a range.
const RANGE: [u8; 5] = *b"range";

// The first words of the lines of refusals.
#[tactic(auto, unfolding(crate::specs::MapText::refused_hobs))]
fn refused_hobs() -> &'static [u8]
    ensures { result.now ≡ refused_hobs }
{
    b"refused hobs"
}

#[tactic(auto, unfolding(crate::specs::MapText::refused_command))]
fn refused_command() -> &'static [u8]
    ensures { result.now ≡ refused_command }
{
    b"refused command"
}

/// Writes the line of a command and its answer: the command's name, then `Success`, with the base that `top` found, or the refusal.
#[tactic(auto, unfolding(crate::specs::MapText::success))]
pub fn put_answer<S: Sink>(sink: &mut S, command: Command, answer: Answer) -> Result<(), SinkFault>
    ensures text { Puts result (S.text sink.old) (S.text sink.new) (answer_line (command, answer)) }
    ensures cause { SinkFaultsAfter result (S.faults sink.old) (S.faults sink.new) }
{
    let name = name_word(command);
    match answer {
        Answer::Done => put_line(sink, name, &[SUCCESS.as_slice()]),
        Answer::At(base) => {
            let mut digits = [0u8; HEXADECIMAL_LEN];
            let len = hexadecimal(base, &mut digits);
            let (base, _) = digits.split_at(len);
            put_line(sink, name, &[SUCCESS.as_slice(), base])
        }
        Answer::Refused(word) => put_line(sink, name, &[refusal_word(word)]),
    }
}

/// Writes the lines of commands and their answers.
pub fn put_answers<S: Sink>(sink: &mut S, steps: &[(Command, Answer)]) -> Result<(), SinkFault>
    ensures text { Puts result (S.text sink.old) (S.text sink.new) (answers_text steps.now) }
    ensures cause { SinkFaultsAfter result (S.faults sink.old) (S.faults sink.new) }
{
    'put: for step in steps {
        put_answer(sink, step.0, step.1)?;
    }
    Ok(())
}

/// Writes the line of a range: its base, its length, its kind, and `free` or `allocated`.
#[tactic(auto, unfolding(crate::specs::MapText::range_keyword))]
pub fn put_range<S: Sink>(sink: &mut S, range: GcdRange) -> Result<(), SinkFault>
    ensures text { Puts result (S.text sink.old) (S.text sink.new) (range_line range) }
    ensures cause { SinkFaultsAfter result (S.faults sink.old) (S.faults sink.new) }
{
    let mut base_digits = [0u8; HEXADECIMAL_LEN];
    let base_len = hexadecimal(range.base, &mut base_digits);
    let (base, _) = base_digits.split_at(base_len);
    let mut len_digits = [0u8; HEXADECIMAL_LEN];
    let len_len = hexadecimal(range.len, &mut len_digits);
    let (len, _) = len_digits.split_at(len_len);
    put_line(
        sink,
        RANGE.as_slice(),
        &[
            base,
            len,
            kind_word(range.kind),
            state_word(range.allocated),
        ],
    )
}

/// Writes the lines of the map's ranges.
pub fn put_map<S: Sink>(sink: &mut S, ranges: &[GcdRange]) -> Result<(), SinkFault>
    ensures text { Puts result (S.text sink.old) (S.text sink.new) (map_text ranges.now) }
    ensures cause { SinkFaultsAfter result (S.faults sink.old) (S.faults sink.new) }
{
    'put: for range in ranges {
        put_range(sink, *range)?;
    }
    Ok(())
}

/// Writes the line of a HOB list's fault.
pub fn put_hobs_refusal<S: Sink>(sink: &mut S, fault: GcdFault) -> Result<(), SinkFault>
    ensures text { Puts result (S.text sink.old) (S.text sink.new) (hobs_refusal fault) }
    ensures cause { SinkFaultsAfter result (S.faults sink.old) (S.faults sink.new) }
{
    let mut digits = [0u8; DECIMAL_LEN];
    let len = decimal(u64::from(fault.at), &mut digits);
    let (at, _) = digits.split_at(len);
    put_line(sink, refused_hobs(), &[cause_word(fault.cause), at])
}

/// Writes the line that refuses a text of commands, with the number of its first line that spells no command, from 1.
pub fn put_command_refusal<S: Sink>(sink: &mut S, line: u32) -> Result<(), SinkFault>
    ensures text { Puts result (S.text sink.old) (S.text sink.new) (command_refusal line) }
    ensures cause { SinkFaultsAfter result (S.faults sink.old) (S.faults sink.new) }
{
    let mut digits = [0u8; DECIMAL_LEN];
    let len = decimal(u64::from(line), &mut digits);
    let (number, _) = digits.split_at(len);
    put_line(sink, refused_command(), &[number])
}
