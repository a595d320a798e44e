// A text, line by line.
ghost use Rattle.std.specs.Prelude.{◌≡◌, ◌+◌, ◌<◌, ◌^◌, length, IfOk, IfErr};
ghost use Rattle.line_words.specs.Line.{lines};
ghost use Rattle.volume_text.specs.Text.{is_passed_over, numbered, Says, Leads, Goes, Moves, IsRefused};
ghost use Rattle.volume_text.specs.{Reading.Answers, Step.IsSaidState};

use crate::fault::{Cause, Fault, TextFault};
use crate::step::{State, step};
use line_words::first_line;
use pi_base::Seq;
use source_words::next_word;
use std::alloc::Global;

// Whether a line is passed over: it has no word.
fn is_passed_over(line: &[u8]) -> bool
    ensures { result ≡ is_passed_over line.now }
{
    next_word(line).is_none()
}

// What is open behind a line more, which may be passed over.
fn behind(alloc: Global, state: State, number: u64, line: &[u8]) -> Result<State, TextFault>
    requires said { IsSaidState state }
    ensures moves { Answers (Moves state number line.now) result }
    ensures said { IfOk result IsSaidState }
{
    if is_passed_over(line) {
        Ok(state)
    } else {
        step(alloc, state, number, line)
    }
}

// What is open behind all lines, and the number of the line behind the last.
#[tactic(auto, using(crate::proofs::Going::at_first, crate::proofs::Going::moved, crate::proofs::Going::refused, crate::proofs::Going::at_last, crate::proofs::Going::count_last))]
fn ends_open(alloc: Global, text: &[u8]) -> Result<(State, u64), TextFault>
    requires { length text.now < 2 ^ 63 }
    ensures goes { IfOk result (λ end. Goes State.Begin (numbered text.now) end.0) }
    ensures line { IfOk result (λ end. end.1 ≡ length (lines text.now) + 1) }
    ensures refused { IfErr result (IsRefused text.now) }
{
    let mut state = State::Begin;
    let mut rest = text;
    let mut number = 1u64;
    'lines: while !rest.is_empty() {
        let (line, after) = first_line(rest);
        match behind(alloc, state, number, line) {
            Ok(next) => state = next,
            Err(fault) => return Err(fault),
        }
        rest = after;
        number += 1;
    }
    Ok((state, number))
}

/// The bytes of the volume that a text describes.
///
/// Spaces and tabs stand in front of lines and between words, and a carriage return before a line feed is dropped. A `#` begins a comment, but in the text
/// of a `log`. Lines without a word are passed over.
#[tactic(auto, using(crate::proofs::Saying::says, crate::proofs::Going::leads, crate::proofs::Going::cut_short))]
pub fn volume_of(alloc: Global, text: &[u8]) -> Result<Seq<u8>, TextFault>
    requires { length text.now < 2 ^ 63 }
    // The bytes are those of a volume whose files the lines say.
    ensures said { IfOk result (Says text.now) }
    ensures leads { IfOk result (Leads text.now) }
    // Where there are none, this is the first line at fault, behind others that can stand as they do, or the text ends too early, or memory ran out.
    ensures refused { IfErr result (IsRefused text.now) }
{
    let (state, line) = match ends_open(alloc, text) {
        Ok(end) => end,
        Err(fault) => return Err(fault),
    };
    match state {
        State::Done { bytes } => Ok(bytes),
        State::Begin => Err(TextFault::Bad(Fault {
            line,
            cause: Cause::NoVolume,
        })),
        State::Filling { .. } => Err(TextFault::Bad(Fault {
            line,
            cause: Cause::NoEnd,
        })),
        State::Writing { .. } => Err(TextFault::Bad(Fault {
            line,
            cause: Cause::NoEnd,
        })),
    }
}
