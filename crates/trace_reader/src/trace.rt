// Reading the text of a trace.
ghost use Rattle.std.specs.Prelude.{◌<◌, ◌-◌, ◌^◌, length, IfOk, IfErr};
ghost use Rattle.boot_model.specs.declared.line.Line.{Line};
ghost use Rattle.trace_reader.specs.Trace.{IsTrace, IsFaultOf};

use crate::fault::TraceFault;
use crate::line::read_line;
use boot_model::Line;
use line_words::printed::first_line;
use pi_base::{OutOfMemory, Seq};
use std::alloc::Global;

/// Reads the text of a trace, of fewer than 2^32 - 1 bytes: the readable lines that have this text, or the first line that is not one.
pub fn read_trace(alloc: Global, text: &[u8]) -> Result<Seq<Line>, TraceFault>
    requires { length text.now < 2 ^ 32 - 1 }
    ensures lines { IfOk result (IsTrace text.now) }
    ensures fault { IfErr result (IsFaultOf text.now) }
{
    let mut lines = Seq::new(alloc);
    let mut rest = text;
    let mut number = 1u32;
    'lines: while !rest.is_empty() {
        let Some((line, after)) = first_line(rest) else {
            return Err(TraceFault::Bad { line: number });
        };
        match read_line(alloc, line) {
            Ok(Some(found)) => lines.push(found)?,
            Ok(None) => return Err(TraceFault::Bad { line: number }),
            Err(OutOfMemory) => return Err(TraceFault::Memory),
        }
        rest = after;
        number += 1;
    }
    Ok(lines)
}
