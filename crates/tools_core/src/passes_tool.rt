// A plan's boot in the order of EDK2's dispatchers.
ghost use Rattle.std.specs.Prelude.{◌≡◌, IfOk, length};
ghost use Rattle.boot_plan.specs.Range.{IsPlanInRange};
ghost use Rattle.tools_core.specs.{Ends.Tells, PassesReport.PassesReport};

use crate::held_text::HeldText;
use crate::report::Report;
use boot_core::plan_files::Job;
use pi_base::OutOfMemory;
use recorded_boot::follow::FollowFault;
use recorded_boot::passes::passes;
use std::alloc::Global;

/// What a plan and the images of its volumes lead to.
pub(crate) fn passes_report(alloc: Global, job: Job) -> Result<Report, OutOfMemory>
    requires in_range { IsPlanInRange job.plan }
    requires as_many { length job.images ≡ length job.plan.volumes }
    ensures { IfOk result (Tells (PassesReport job.plan job.images)) }
{
    let Job { plan, images } = job;
    let mut held = HeldText::new(alloc);
    match passes(alloc, &plan, images, &mut held) {
        Ok(passed) => Ok(Report::Passed {
            lines: held.text,
            passed,
        }),
        Err(FollowFault::Image(fault)) => Ok(Report::Image(fault)),
        Err(FollowFault::Twins { .. }) => unreachable!(),
        // The held text fails only if memory runs out.
        Err(FollowFault::Sink | FollowFault::Memory) => Err(OutOfMemory),
    }
}
