// The files of a tool.
ghost use Rattle.std.specs.Prelude.{◌≡◌, ℕ, List, IfOk, OnErr};
ghost use Rattle.tools_core.specs.{Ends.IsReading, FileRefusal.IsFileRefusal, FileRefusal.IsReportOf};

use crate::report::Report;
use boot_core::plan_files::NoJob;
use boot_io::Files;
use boot_model::Line;
use boot_plan::PlanFault;
use pi_base::{OutOfMemory, Seq};
use std::alloc::Global;

/// The content of a file, or why it could not be read.
#[derive(Drop)]
pub(crate) enum Reading {
    Content(Seq<u8>),
    Refused(Report),
}

/// The report of a file that could not be read or is too long, or of a plan's fault.
pub(crate) fn report_of(line: Line) -> Report
    requires { IsFileRefusal line }
    ensures { IsReportOf line result }
{
    match line {
        Line::RefusedFile { name } => Report::NoFile(name),
        Line::RefusedLong { name } => Report::Long(name),
        Line::RefusedPlan { line, cause } => Report::Plan(PlanFault { line, cause }),
        _ => unreachable!(),
    }
}

/// Reads the file of a name.
pub(crate) fn read_file<F: Files>(
    alloc: Global,
    name: &str,
    limit: usize,
    files: &mut F,
) -> Result<Reading, OutOfMemory>
    ensures same { (other : List ℕ) → F.told files.new other ≡ F.told files.old other }
    ensures reading { IfOk result (IsReading (F.told files.old name.now) limit name.now (record {
      before = F.faults files.old;
      now = F.faults files.new;
      missed = F.missed files.new;
    })) }
    ensures memory { OnErr result (F.faults files.new ≡ F.faults files.old) }
{
    match boot_core::plan_files::read_file(alloc, name, limit, files) {
        Ok(content) => Ok(Reading::Content(content)),
        Err(NoJob::Refused(line)) => Ok(Reading::Refused(report_of(line))),
        Err(NoJob::Memory) => Err(OutOfMemory),
    }
}
