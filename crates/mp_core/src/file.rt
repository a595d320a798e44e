// The text of an MP file.
ghost use Rattle.std.specs.Prelude.{◌+◌, ◌-◌, ◌<◌, ◌^◌, ◌∷◌, length, IfOk, IfErr};
ghost use Rattle.line_words.specs.Line.{lines};
ghost use Rattle.mp_core.specs.declared.limits.TheConstants.{MOST_CELLS, MOST_PROCESSORS};
ghost use Rattle.mp_core.specs.{Calls.AreEvents, Calls.IsCount, FileFaults.IsMpFault, FileFaults.IsFaultBehind};
ghost use Rattle.mp_core.specs.FileText.{IsMpFile, AreLinesOf, numbered_from};

use crate::event::MpEvent;
use crate::fault::MpFault;
use crate::head::head_of;
use crate::lines::read_events;
use line_words::{first_line, is_passed_over};
use pi_base::Seq;
use std::alloc::Global;

/// The contents of an MP file.
#[derive(Drop)]
pub struct MpFile {
    /// How many processors there are.
    pub processors: u32,
    /// How many shared cells there are.
    pub cells: u32,
    /// What happens, in order.
    pub events: Seq<MpEvent>,
}

// Reads the first line that is not skipped, which has this number, and the lines after it.
fn read_from(alloc: Global, line: &[u8], number: u32, rest: &[u8]) -> Result<MpFile, MpFault>
    requires { number + 1 + length rest.now < 2 ^ 32 }
    ensures file { IfOk result (λ file. AreLinesOf file ((number, line.now) ∷ numbered_from (number + 1) (lines rest.now))) }
    ensures processors { IfOk result (λ file. IsCount MOST_PROCESSORS file.processors) }
    ensures cells { IfOk result (λ file. IsCount MOST_CELLS file.cells) }
    ensures events { IfOk result (λ file. AreEvents file.processors file.cells file.events) }
    ensures fault { IfErr result (IsFaultBehind number line.now (numbered_from (number + 1) (lines rest.now))) }
{
    match head_of(line) {
        None => Err(MpFault::Bad { line: number }),
        Some((processors, cells)) => match read_events(alloc, rest, number + 1, processors, cells) {
            Ok(events) => Ok(MpFile {
                processors,
                cells,
                events,
            }),
            Err(fault) => Err(fault),
        },
    }
}

/// Reads an MP file of fewer than 2^32 - 1 bytes. Lines that are empty or begin with `#` are skipped.
///
/// The first other line is `mp N C`, with N processors, at most `MOST_PROCESSORS`, and C cells, at most `MOST_CELLS`. Each later line is one event: `all BY
/// OP..`, `this BY P OP..`, `enable BY P`, `disable BY P`, `switch BY P on`, `switch BY P off`, `who BY` or `turn P`. It has one to `MOST_OPS` operations,
/// `add=CELL:N` or `put=N`.
///
/// BY is below N, CELL below C, P below 2^32, and each other number below 2^64. All numbers are decimal.
pub fn read_mp(alloc: Global, text: &[u8]) -> Result<MpFile, MpFault>
    requires { length text.now < 2 ^ 32 - 1 }
    ensures file { IfOk result (IsMpFile text.now) }

    // What `run` needs.
    ensures processors { IfOk result (λ file. IsCount MOST_PROCESSORS file.processors) }
    ensures cells { IfOk result (λ file. IsCount MOST_CELLS file.cells) }
    ensures events { IfOk result (λ file. AreEvents file.processors file.cells file.events) }

    ensures fault { IfErr result (IsMpFault text.now) }
{
    let mut rest = text;
    let mut count = 0u32;
    'lines: while !rest.is_empty() {
        let (line, after) = first_line(rest);
        count += 1;
        if !is_passed_over(line) {
            return read_from(alloc, line, count, after);
        }
        rest = after;
    }
    Err(MpFault::Bad { line: count + 1 })
}
