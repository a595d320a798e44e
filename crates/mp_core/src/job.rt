// Operations and jobs.
ghost use Rattle.std.specs.Prelude.{◌≡◌, ◌≢◌, ◌==◌, slice_index, IfSome, IfOk};
ghost use Rattle.std.specs.List.{before_first, after_first};
ghost use Rattle.line_words.specs.Words.{words};
ghost use Rattle.mp_core.specs.Calls.{IsOp, IsJob};
ghost use Rattle.mp_core.specs.LineText.{add_of, op_of, job_of};

use crate::limits::MOST_OPS;
use crate::op::Op;
use crate::word::{decimal_of, next_word, number_below};
use line_words::place_of;
use pi_base::{OutOfMemory, Seq};
use std::alloc::Global;

const ADD: [u8; 3] = *b"add";

const PUT: [u8; 3] = *b"put";

// What is between an operation and its operands.
const EQUALS: u8 = b'=';

// What is between a cell and a number.
const COLON: u8 = b':';

// What is before the first such sign, and what is after it.
fn parted(text: &[u8], sign: u8) -> (&[u8], &[u8])
    ensures before { result.0.now ≡ before_first (λ byte. byte == sign) text.now }
    ensures after { result.1.now ≡ after_first (λ byte. byte == sign) text.now }
{
    let (before, rest) = text.split_at(place_of(text, sign));
    match rest {
        [_, after @ ..] => (before, after),
        [] => (before, rest),
    }
}

// The addition of a cell that there is and a number.
fn add_of(operand: &[u8], cells: u32) -> Option<Op>
    ensures op { result ≡ add_of cells operand.now }
    ensures fits { IfSome result (IsOp cells) }
{
    let (cell, n) = parted(operand, COLON);
    let cell = number_below(cell, u64::from(cells))?;
    let n = decimal_of(n)?;
    Some(Op::Add { cell, n })
}

// The operation that a word spells, of a cell that there is.
fn op_of(word: &[u8], cells: u32) -> Option<Op>
    ensures op { result ≡ op_of cells word.now }
    ensures fits { IfSome result (IsOp cells) }
{
    let (name, operand) = parted(word, EQUALS);
    if name == ADD.as_slice() {
        add_of(operand, cells)
    } else if name == PUT.as_slice() {
        let n = decimal_of(operand)?;
        Some(Op::Put { n })
    } else {
        None
    }
}

// The job that the words of a line's rest spell.
pub(crate) fn read_job(
    alloc: Global,
    line: &[u8],
    cells: u32,
) -> Result<Option<Seq<Op>>, OutOfMemory>
    requires { slice_index line.now 0 ≢ 32 }
    ensures job { IfOk result (λ job. job ≡ job_of cells (words line.now)) }
    ensures fits { IfOk result (λ job. IfSome job (IsJob cells)) }
{
    let mut job = Seq::new(alloc);
    let mut rest = line;
    'ops: while let Some((word, after)) = next_word(rest) {
        let Some(op) = op_of(word, cells) else {
            return Ok(None);
        };
        if job.len() == MOST_OPS {
            return Ok(None);
        }
        job.push(op)?;
        rest = after;
    }
    if job.is_empty() {
        Ok(None)
    } else {
        Ok(Some(job))
    }
}
