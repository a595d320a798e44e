// The memory space map of a HOB list.
ghost use Rattle.std.specs.Prelude.{◌≤◌, length, IfOk};
ghost use Rattle.tools_core.specs.{Ends.Tells, GcdReport.GcdReport};

use crate::report::Report;
use gcd_map::{CommandFault, GcdCause, from_hobs, read_commands};
use pi_base::OutOfMemory;
use std::alloc::Global;

/// What a HOB list and the text of commands lead to.
pub(crate) fn map_report(alloc: Global, bytes: &[u8], lines: &[u8]) -> Result<Report, OutOfMemory>
    requires bytes { length bytes.now ≤ 0x100000 }
    requires lines { length lines.now ≤ 0x10000 }
    ensures { IfOk result (Tells (GcdReport bytes.now lines.now)) }
{
    let mut map = match from_hobs(alloc, bytes) {
        Ok(map) => map,
        Err(fault) => {
            if fault.cause == GcdCause::Memory {
                return Err(OutOfMemory);
            }
            return Ok(Report::Hobs(fault));
        }
    };
    let commands = match read_commands(alloc, lines) {
        Ok(commands) => commands,
        Err(CommandFault::Bad { line }) => return Ok(Report::Command(line)),
        Err(CommandFault::Memory) => return Err(OutOfMemory),
    };
    let steps = map.run(alloc, commands.as_slice())?;
    Ok(Report::Map { steps, map })
}
