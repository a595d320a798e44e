// A plan and a trace: the verdict on the trace, or its boot, explained.
ghost use Rattle.std.specs.Prelude.{◌≡◌, ◌≤◌, IfOk, OnErr, length};
ghost use Rattle.boot_core.specs.Job.{IsNamedIn};
ghost use Rattle.tools_core.specs.Ends.{Reports};
ghost use Rattle.tools_core.specs.TraceReport.{TextsOutcome, TraceNames, TraceOutcome};

use crate::check_tool::check_report;
use crate::command_line::TraceTool;
use crate::reading::{Reading, read_file, report_of};
use crate::report::Report;
use crate::told_tool::told_report;
use boot_core::plan_files::{NoJob, PLAN_LIMIT, job_of};
use boot_io::Files;
use pi_base::OutOfMemory;
use std::alloc::Global;

/// The most bytes of a trace.
pub(crate) const TRACE_LIMIT: usize = 0x400_0000;

// What the texts of a plan and of a trace lead to, by the files of the plan's volumes.
fn with_texts<F: Files>(
    alloc: Global,
    tool: TraceTool,
    content: &[u8],
    text: &[u8],
    files: &mut F,
) -> Result<Report, OutOfMemory>
    requires content { length content.now ≤ 0x10000 }
    requires text { length text.now ≤ 0x4000000 }
    ensures report { IfOk result (λ report. Reports (TextsOutcome tool (F.told files.old) content.now text.now)
        (IsNamedIn (F.told files.old) content.now) report
        (record { before = F.faults files.old; now = F.faults files.new; missed = F.missed files.new })) }
    ensures memory { OnErr result (F.faults files.new ≡ F.faults files.old) }
{
    match job_of(alloc, content, files) {
        Ok(job) => match tool {
            TraceTool::Check => check_report(alloc, job, text),
            TraceTool::Explain => told_report(alloc, job, text),
        },
        Err(NoJob::Refused(line)) => Ok(report_of(line)),
        Err(NoJob::Memory) => Err(OutOfMemory),
    }
}

/// What the files of a plan, of a trace and of the plan's volumes lead to, which are read in this order; the plan is examined before its volumes are read.
pub(crate) fn with_trace<F: Files>(
    alloc: Global,
    tool: TraceTool,
    plan: &str,
    trace: &str,
    files: &mut F,
) -> Result<Report, OutOfMemory>
    ensures report { IfOk result (λ report. Reports (TraceOutcome tool (F.told files.old) plan.now trace.now)
        (TraceNames (F.told files.old) plan.now trace.now) report
        (record { before = F.faults files.old; now = F.faults files.new; missed = F.missed files.new })) }
    ensures memory { OnErr result (F.faults files.new ≡ F.faults files.old) }
{
    let content = match read_file(alloc, plan, PLAN_LIMIT, files)? {
        Reading::Content(content) => content,
        Reading::Refused(report) => return Ok(report),
    };
    let text = match read_file(alloc, trace, TRACE_LIMIT, files)? {
        Reading::Content(text) => text,
        Reading::Refused(report) => return Ok(report),
    };
    with_texts(alloc, tool, content.as_slice(), text.as_slice(), files)
}
