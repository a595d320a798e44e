// A plan alone: the HOB list of its boot, its boot, explained, each in the machine's order or in that of EDK2's dispatchers, or its boot in that order.
ghost use Rattle.std.specs.Prelude.{◌≡◌, ◌≤◌, IfOk, OnErr, length};
ghost use Rattle.boot_core.specs.Job.{IsNamedIn};
ghost use Rattle.tools_core.specs.{Ends.Reports, JobOutcome.JobOutcome};
ghost use Rattle.tools_core.specs.PlanReport.{PlanNames, PlanOutcome, PlanReport};

use crate::command_line::PlanTool;
use crate::explain_tool::explain_report;
use crate::hobs_tool::{hobs_report, turn_hobs_report};
use crate::passes_tool::passes_report;
use crate::reading::{Reading, read_file, report_of};
use crate::report::Report;
use crate::turn_tool::turns_report;
use boot_core::plan_files::{NoJob, PLAN_LIMIT, job_of};
use boot_io::Files;
use pi_base::OutOfMemory;
use std::alloc::Global;

// What the text of a plan leads to, by the files of its volumes.
fn with_text<F: Files>(
    alloc: Global,
    tool: PlanTool,
    content: &[u8],
    files: &mut F,
) -> Result<Report, OutOfMemory>
    requires content { length content.now ≤ 0x10000 }
    ensures report { IfOk result (λ report. Reports (JobOutcome (PlanReport tool) (F.told files.old) content.now)
        (IsNamedIn (F.told files.old) content.now) report
        (record { before = F.faults files.old; now = F.faults files.new; missed = F.missed files.new })) }
    ensures memory { OnErr result (F.faults files.new ≡ F.faults files.old) }
{
    match job_of(alloc, content, files) {
        Ok(job) => match tool {
            PlanTool::Hobs => hobs_report(alloc, job),
            PlanTool::HobsInTurns => turn_hobs_report(alloc, job),
            PlanTool::Reasons => explain_report(alloc, job),
            PlanTool::ReasonsInTurns => turns_report(alloc, job),
            PlanTool::Passes => passes_report(alloc, job),
        },
        Err(NoJob::Refused(line)) => Ok(report_of(line)),
        Err(NoJob::Memory) => Err(OutOfMemory),
    }
}

/// What the files of a plan and of its volumes lead to, which are read in this order; the plan is examined before its volumes are read.
pub(crate) fn with_plan<F: Files>(
    alloc: Global,
    tool: PlanTool,
    plan: &str,
    files: &mut F,
) -> Result<Report, OutOfMemory>
    ensures report { IfOk result (λ report. Reports (PlanOutcome tool (F.told files.old) plan.now)
        (PlanNames (F.told files.old) plan.now) report
        (record { before = F.faults files.old; now = F.faults files.new; missed = F.missed files.new })) }
    ensures memory { OnErr result (F.faults files.new ≡ F.faults files.old) }
{
    let content = match read_file(alloc, plan, PLAN_LIMIT, files)? {
        Reading::Content(content) => content,
        Reading::Refused(report) => return Ok(report),
    };
    with_text(alloc, tool, content.as_slice(), files)
}
