// A plan's boot in an order of starts.
ghost use Rattle.std.specs.Prelude.{◌≡◌, ◌≤◌, ◌-◌, ◌^◌, IfOk, OnErr, length};
ghost use Rattle.boot_plan.specs.Range.{IsPlanInRange};
ghost use Rattle.boot_core.specs.Job.{IsNamedIn};
ghost use Rattle.tools_core.specs.Ends.{Reports, Tells};
ghost use Rattle.tools_core.specs.FollowReport.{FollowNames, FollowOutcome, FollowReport, OrderReport, OrderTextsOutcome};

use crate::held_text::HeldText;
use crate::reading::{Reading, read_file, report_of};
use crate::report::Report;
use boot_core::plan_files::{Job, NoJob, PLAN_LIMIT, job_of};
use boot_io::Files;
use pi_base::OutOfMemory;
use recorded_boot::follow::{FollowFault, follow};
use recorded_boot::order::{OrderFault, StartOrder, one_reading, read_order};
use std::alloc::Global;

// The most bytes of an order.
const ORDER_LIMIT: usize = 0x10_0000;

// What a plan, the images of its volumes and an order lead to.
fn order_report(alloc: Global, job: Job, order: &StartOrder) -> Result<Report, OutOfMemory>
    requires in_range { IsPlanInRange job.plan }
    requires as_many { length job.images ≡ length job.plan.volumes }
    requires few { length order.now.starts ≤ 2 ^ 32 - 1 }
    ensures { IfOk result (Tells (OrderReport job.plan job.images order.now)) }
{
    let Job { plan, images } = job;
    let mut held = HeldText::new(alloc);
    match follow(alloc, &plan, images, order, &mut held) {
        Ok(followed) => Ok(Report::Followed {
            lines: held.text,
            followed,
        }),
        Err(FollowFault::Image(fault)) => Ok(Report::Image(fault)),
        Err(FollowFault::Twins { volume }) => Ok(Report::Twins(volume)),
        // The held text fails only if memory runs out.
        Err(FollowFault::Sink | FollowFault::Memory) => Err(OutOfMemory),
    }
}

// What a plan, the images of its volumes and the text of an order lead to.
fn follow_report(alloc: Global, job: Job, text: &[u8]) -> Result<Report, OutOfMemory>
    requires in_range { IsPlanInRange job.plan }
    requires as_many { length job.images ≡ length job.plan.volumes }
    requires text { length text.now ≤ 0x100000 }
    ensures { IfOk result (Tells (FollowReport job.plan job.images text.now)) }
{
    one_reading();
    match read_order(alloc, text) {
        Ok(order) => order_report(alloc, job, &order),
        Err(OrderFault::Bad { line }) => Ok(Report::Order(line)),
        Err(OrderFault::Memory) => Err(OutOfMemory),
    }
}

// What the texts of a plan and of an order lead to, by the files of the plan's volumes.
fn with_texts<F: Files>(
    alloc: Global,
    content: &[u8],
    text: &[u8],
    files: &mut F,
) -> Result<Report, OutOfMemory>
    requires content { length content.now ≤ 0x10000 }
    requires text { length text.now ≤ 0x100000 }
    ensures report { IfOk result (λ report. Reports (OrderTextsOutcome (F.told files.old) content.now text.now)
        (IsNamedIn (F.told files.old) content.now) report
        (record { before = F.faults files.old; now = F.faults files.new; missed = F.missed files.new })) }
    ensures memory { OnErr result (F.faults files.new ≡ F.faults files.old) }
{
    match job_of(alloc, content, files) {
        Ok(job) => follow_report(alloc, job, text),
        Err(NoJob::Refused(line)) => Ok(report_of(line)),
        Err(NoJob::Memory) => Err(OutOfMemory),
    }
}

/// What the files of a plan, of an order of starts and of the plan's volumes lead to, which are read in this order; the plan is examined before its volumes are
/// read, and the order after that.
pub(crate) fn with_follow<F: Files>(
    alloc: Global,
    plan: &str,
    order: &str,
    files: &mut F,
) -> Result<Report, OutOfMemory>
    ensures report { IfOk result (λ report. Reports (FollowOutcome (F.told files.old) plan.now order.now)
        (FollowNames (F.told files.old) plan.now order.now) report
        (record { before = F.faults files.old; now = F.faults files.new; missed = F.missed files.new })) }
    ensures memory { OnErr result (F.faults files.new ≡ F.faults files.old) }
{
    let content = match read_file(alloc, plan, PLAN_LIMIT, files)? {
        Reading::Content(content) => content,
        Reading::Refused(report) => return Ok(report),
    };
    let text = match read_file(alloc, order, ORDER_LIMIT, files)? {
        Reading::Content(text) => text,
        Reading::Refused(report) => return Ok(report),
    };
    with_texts(alloc, content.as_slice(), text.as_slice(), files)
}
