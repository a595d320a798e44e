// The HOB list of a plan's boot, in the machine's order or in that of EDK2's dispatchers.
ghost use Rattle.std.specs.Prelude.{◌≡◌, IfOk, length};
ghost use Rattle.boot_plan.specs.Range.{IsPlanInRange};
ghost use Rattle.mod_catalog.specs.declared.image_fault.ImageFault.{ImageFault as OfImage};
ghost use Rattle.boot_model.specs.declared.line.Line.TheVariants as L;
ghost use Rattle.tools_core.specs.declared.report.Report.TheVariants as R;
ghost use Rattle.boot_core.specs.HandOff.{IsHandOff};
ghost use Rattle.recorded_boot.specs.HandOff.{IsHandOffInTurns};
ghost use Rattle.tools_core.specs.{Ends.Tells, HobsReport.HobsReport, HobsReport.told_hand_off};

use crate::report::Report;
use boot_core::plan_files::{Job, NoJob};
use boot_core::{HandOff, hand_off};
use boot_model::Line;
use mod_catalog::ImageFault;
use pi_base::OutOfMemory;
use recorded_boot::handing_on::hand_off_in_turns;
use std::alloc::Global;

/// The report of an image's refusal.
pub(crate) fn image_report(line: Line) -> Report
    requires { (fault : OfImage) × (line ≡ L.RefusedImage fault.volume fault.at fault.cause) }
    ensures { (fault : OfImage) → line ≡ L.RefusedImage fault.volume fault.at fault.cause → result ≡ R.Image fault }
{
    match line {
        Line::RefusedImage { volume, at, cause } => Report::Image(ImageFault { volume, at, cause }),
        _ => unreachable!(),
    }
}

// The report of what PEI handed on.
fn told_hand_off(handed: HandOff) -> Report
    ensures { result ≡ told_hand_off handed }
{
    match handed {
        HandOff::Hobs(hobs) => Report::Answer(hobs),
        HandOff::Ended(end) => Report::Ended(end),
    }
}

/// What a plan and the images of its volumes lead to.
pub(crate) fn hobs_report(alloc: Global, job: Job) -> Result<Report, OutOfMemory>
    requires in_range { IsPlanInRange job.plan }
    requires as_many { length job.images ≡ length job.plan.volumes }
    ensures { IfOk result (Tells (HobsReport (IsHandOff job.plan job.images) job.plan job.images)) }
{
    let Job { plan, images } = job;
    match hand_off(alloc, &plan, images) {
        Ok(handed) => Ok(told_hand_off(handed)),
        Err(NoJob::Refused(line)) => Ok(image_report(line)),
        Err(NoJob::Memory) => Err(OutOfMemory),
    }
}

/// What they lead to in the order of EDK2's dispatchers.
pub(crate) fn turn_hobs_report(alloc: Global, job: Job) -> Result<Report, OutOfMemory>
    requires in_range { IsPlanInRange job.plan }
    requires as_many { length job.images ≡ length job.plan.volumes }
    ensures { IfOk result (Tells (HobsReport (IsHandOffInTurns job.plan job.images) job.plan job.images)) }
{
    let Job { plan, images } = job;
    match hand_off_in_turns(alloc, &plan, images) {
        Ok(handed) => Ok(told_hand_off(handed)),
        Err(NoJob::Refused(line)) => Ok(image_report(line)),
        Err(NoJob::Memory) => Err(OutOfMemory),
    }
}
