// The MP services over a list of events.
ghost use Rattle.std.specs.Prelude.{◌≤◌, length, IfOk};
ghost use Rattle.tools_core.specs.{Ends.Tells, MpReport.MpReport};

use crate::report::Report;
use mp_core::{MpFault, read_mp, run};
use pi_base::OutOfMemory;
use std::alloc::Global;

/// What an MP file leads to.
pub(crate) fn mp_report(alloc: Global, text: &[u8]) -> Result<Report, OutOfMemory>
    requires { length text.now ≤ 0x4000000 }
    ensures { IfOk result (Tells (MpReport text.now)) }
{
    let file = match read_mp(alloc, text) {
        Ok(file) => file,
        Err(MpFault::Bad { line }) => return Ok(Report::Event(line)),
        Err(MpFault::Memory) => return Err(OutOfMemory),
    };
    let outcome = run(alloc, file.processors, file.cells, file.events.as_slice())?;
    Ok(Report::Mp { file, outcome })
}
