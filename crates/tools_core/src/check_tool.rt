// The verdict on a trace.
ghost use Rattle.std.specs.Prelude.{◌≡◌, ◌≤◌, IfOk, length};
ghost use Rattle.boot_plan.specs.Range.{IsPlanInRange};
ghost use Rattle.tools_core.specs.{declared.command_line.TraceTool.TheVariants.Check, Ends.Tells, TraceReport.TraceReport};

use crate::report::Report;
use boot_core::plan_files::Job;
use pi_base::OutOfMemory;
use recorded_boot::trace::{CheckFault, check};
use std::alloc::Global;

/// What a plan, the images of its volumes and the text of a trace lead to: whether it is that of a free boot.
pub(crate) fn check_report(alloc: Global, job: Job, text: &[u8]) -> Result<Report, OutOfMemory>
    requires in_range { IsPlanInRange job.plan }
    requires as_many { length job.images ≡ length job.plan.volumes }
    requires text { length text.now ≤ 0x4000000 }
    ensures { IfOk result (Tells (TraceReport Check job.plan job.images text.now)) }
{
    let Job { plan, images } = job;
    match check(alloc, &plan, images, text) {
        Ok(verdict) => Ok(Report::Verdict(verdict)),
        Err(CheckFault::Image(fault)) => Ok(Report::Image(fault)),
        Err(CheckFault::Twins { volume }) => Ok(Report::Twins(volume)),
        Err(CheckFault::Memory) => Err(OutOfMemory),
    }
}
