// Explaining the boot in the order of EDK2's dispatchers.
ghost use Rattle.std.specs.Prelude.{◌≡◌, IfOk, length};
ghost use Rattle.boot_plan.specs.Range.{IsPlanInRange};
ghost use Rattle.tools_core.specs.{Ends.Tells, TurnsReport.TextExplained, TurnsReport.TurnsReport};

use crate::held_text::HeldText;
use crate::report::Report;
use crate::told_tool::{copied, told_report};
use crate::trace_tool::TRACE_LIMIT;
use boot_core::plan_files::Job;
use pi_base::{OutOfMemory, Seq};
use recorded_boot::follow::FollowFault;
use recorded_boot::passes::{Passed, passes};
use std::alloc::Global;

// What the text of that boot leads to: it is explained as a trace is.
fn text_report(alloc: Global, job: Job, text: &[u8]) -> Result<Report, OutOfMemory>
    requires in_range { IsPlanInRange job.plan }
    requires as_many { length job.images ≡ length job.plan.volumes }
    ensures { IfOk result (Tells (TextExplained job.plan job.images text.now)) }
{
    if text.len() > TRACE_LIMIT {
        let mut name = Seq::new(alloc);
        name.append(b"passes")?;
        return Ok(Report::Long(name));
    }
    told_report(alloc, job, text)
}

/// What a plan and the images of its volumes lead to. The boot copies the images.
pub(crate) fn turns_report(alloc: Global, job: Job) -> Result<Report, OutOfMemory>
    requires in_range { IsPlanInRange job.plan }
    requires as_many { length job.images ≡ length job.plan.volumes }
    ensures { IfOk result (Tells (TurnsReport job.plan job.images)) }
{
    let Job { plan, images } = job;
    let copies = copied(alloc, images.as_slice())?;
    let mut held = HeldText::new(alloc);
    match passes(alloc, &plan, copies, &mut held) {
        Ok(Passed::Ended(_)) => text_report(alloc, Job { plan, images }, held.text.as_slice()),
        Ok(Passed::No(turn)) => Ok(Report::Passed {
            lines: Seq::new(alloc),
            passed: Passed::No(turn),
        }),
        Err(FollowFault::Image(fault)) => Ok(Report::Image(fault)),
        Err(FollowFault::Twins { .. }) => unreachable!(),
        // The held text fails only if memory runs out.
        Err(FollowFault::Sink | FollowFault::Memory) => Err(OutOfMemory),
    }
}
