// The events that lines spell.
ghost use Rattle.std.specs.Prelude.{◌≡◌, ◌≢◌, ◌<◌, ℕ, slice_index, IfSome, IfOk};
ghost use Rattle.line_words.specs.Words.{words};
ghost use Rattle.mp_core.specs.Calls.{IsEvent};
ghost use Rattle.mp_core.specs.LineText.{enabled_of, all_of, this_of, enable_of, switch_of, who_of, turn_of, event_by, event_of};

use crate::event::MpEvent;
use crate::job::read_job;
use crate::keyword::{Keyword, keyword_named};
use crate::word::{next_word, number_below, processor_of};
use line_words::is_plain;
use pi_base::OutOfMemory;
use std::alloc::Global;

const ON: [u8; 2] = *b"on";

const OFF: [u8; 3] = *b"off";

// Whether a processor is to be enabled.
fn enabled_of(word: &[u8]) -> Option<bool>
    ensures { result ≡ enabled_of word.now }
{
    if word == ON.as_slice() {
        Some(true)
    } else if word == OFF.as_slice() {
        Some(false)
    } else {
        None
    }
}

// Each of these reads what follows a keyword and the caller, if there is such a processor.
fn all_of(
    alloc: Global,
    by: Option<u32>,
    ops: &[u8],
    cells: u32,
) -> Result<Option<MpEvent>, OutOfMemory>
    requires { slice_index ops.now 0 ≢ 32 }
    ensures event { IfOk result (λ event. event ≡ all_of cells by (words ops.now)) }
    ensures fits { (processors : ℕ) → IfSome by (λ by. by < processors)
        → IfOk result (λ event. IfSome event (IsEvent processors cells)) }
{
    let Some(by) = by else {
        return Ok(None);
    };
    match read_job(alloc, ops, cells)? {
        Some(job) => Ok(Some(MpEvent::All { by, job })),
        None => Ok(None),
    }
}

fn this_of(
    alloc: Global,
    by: Option<u32>,
    operands: &[u8],
    cells: u32,
) -> Result<Option<MpEvent>, OutOfMemory>
    requires { slice_index operands.now 0 ≢ 32 }
    ensures event { IfOk result (λ event. event ≡ this_of cells by (words operands.now)) }
    ensures fits { (processors : ℕ) → IfSome by (λ by. by < processors)
        → IfOk result (λ event. IfSome event (IsEvent processors cells)) }
{
    let Some((on, ops)) = next_word(operands) else {
        return Ok(None);
    };
    let Some(by) = by else {
        return Ok(None);
    };
    let Some(on) = processor_of(on) else {
        return Ok(None);
    };
    match read_job(alloc, ops, cells)? {
        Some(job) => Ok(Some(MpEvent::This { by, on, job })),
        None => Ok(None),
    }
}

fn enable_of(by: Option<u32>, operands: &[u8], enabled: bool) -> Option<MpEvent>
    requires { slice_index operands.now 0 ≢ 32 }
    ensures event { result ≡ enable_of enabled by (words operands.now) }
    ensures fits { (processors cells : ℕ) → IfSome by (λ by. by < processors) → IfSome result (IsEvent processors cells) }
{
    let (on, rest) = next_word(operands)?;
    match next_word(rest) {
        Some(_) => None,
        None => {
            let by = by?;
            let on = processor_of(on)?;
            Some(MpEvent::Enable { by, on, enabled })
        }
    }
}

fn switch_of(by: Option<u32>, operands: &[u8]) -> Option<MpEvent>
    requires { slice_index operands.now 0 ≢ 32 }
    ensures event { result ≡ switch_of by (words operands.now) }
    ensures fits { (processors cells : ℕ) → IfSome by (λ by. by < processors) → IfSome result (IsEvent processors cells) }
{
    let (on, rest) = next_word(operands)?;
    let (enabled, rest) = next_word(rest)?;
    match next_word(rest) {
        Some(_) => None,
        None => {
            let by = by?;
            let on = processor_of(on)?;
            let enabled = enabled_of(enabled)?;
            Some(MpEvent::Switch { by, on, enabled })
        }
    }
}

fn who_of(by: Option<u32>, operands: &[u8]) -> Option<MpEvent>
    requires { slice_index operands.now 0 ≢ 32 }
    ensures event { result ≡ who_of by (words operands.now) }
    ensures fits { (processors cells : ℕ) → IfSome by (λ by. by < processors) → IfSome result (IsEvent processors cells) }
{
    match next_word(operands) {
        Some(_) => None,
        None => {
            let by = by?;
            Some(MpEvent::Who { by })
        }
    }
}

// A turn has no caller, but names a processor.
fn turn_of(on: Option<u32>, operands: &[u8]) -> Option<MpEvent>
    requires { slice_index operands.now 0 ≢ 32 }
    ensures event { result ≡ turn_of on (words operands.now) }
    ensures fits { (processors cells : ℕ) → IfSome result (IsEvent processors cells) }
{
    match next_word(operands) {
        Some(_) => None,
        None => {
            let on = on?;
            Some(MpEvent::Turn { on })
        }
    }
}

// The event of a keyword, the word after it, and the operands after that.
fn event_by(
    alloc: Global,
    keyword: Keyword,
    first: &[u8],
    operands: &[u8],
    processors: u32,
    cells: u32,
) -> Result<Option<MpEvent>, OutOfMemory>
    requires { slice_index operands.now 0 ≢ 32 }
    ensures event { IfOk result (λ event. event ≡ event_by processors cells keyword first.now (words operands.now)) }
    ensures fits { IfOk result (λ event. IfSome event (IsEvent processors cells)) }
{
    let by = number_below(first, u64::from(processors));
    match keyword {
        Keyword::All => all_of(alloc, by, operands, cells),
        Keyword::This => this_of(alloc, by, operands, cells),
        Keyword::Enable => Ok(enable_of(by, operands, true)),
        Keyword::Disable => Ok(enable_of(by, operands, false)),
        Keyword::Switch => Ok(switch_of(by, operands)),
        Keyword::Who => Ok(who_of(by, operands)),
        Keyword::Turn => Ok(turn_of(processor_of(first), operands)),
    }
}

// The event that a line spells, if it spells one.
pub(crate) fn read_event(
    alloc: Global,
    line: &[u8],
    processors: u32,
    cells: u32,
) -> Result<Option<MpEvent>, OutOfMemory>
    ensures event { IfOk result (λ event. event ≡ event_of processors cells line.now) }
    ensures fits { IfOk result (λ event. IfSome event (IsEvent processors cells)) }
{
    if !is_plain(line) {
        return Ok(None);
    }
    let Some((name, operands)) = next_word(line) else {
        return Ok(None);
    };
    let Some((first, operands)) = next_word(operands) else {
        return Ok(None);
    };
    match keyword_named(name) {
        Some(keyword) => event_by(alloc, keyword, first, operands, processors, cells),
        None => Ok(None),
    }
}
