//! A plan with the images of its volumes.
ghost use Rattle.std.specs.Prelude.{◌≡◌, ◌≤◌, ℕ, List, All, IfOk, length};
ghost use Rattle.boot_plan.specs.Range.{IsName, IsPlanInRange, IsVolumeInRange};
ghost use Rattle.boot_core.specs.Job.{IsJob, IsJobOf, IsNamed, IsNamedIn, IsRefusal, IsTextRefusal};
ghost use Rattle.boot_core.specs.Parsing.{Parses};
ghost use Rattle.boot_core.specs.Reading.{AreImages, IsLongVolume, IsReached, Reads};

use crate::plan_files::reading::{NoJob, read_file};
use boot_io::Files;
use boot_model::Line;
use boot_plan::{Plan, PlanCause, PlanVolume, read_plan};
use pi_base::Seq;
use std::alloc::Global;
use std::str;

/// The longest plan, in bytes.
pub const PLAN_LIMIT: usize = 0x1_0000;

/// The longest file of a volume, in bytes.
const VOLUME_LIMIT: usize = 0x400_0000;

/// A plan, with the images of its volumes in their order.
#[derive(Drop)]
pub struct Job {
    /// What a boot starts from.
    pub plan: Plan,
    /// An image for each volume, as its file has it.
    pub images: Seq<Seq<u8>>,
}

// A name as text.
fn text_of(name: &[u8]) -> &str
    requires { IsName name.now }
    ensures { result.now ≡ name.now }
{
    match str::from_utf8(name) {
        Ok(text) => text,
        Err(_) => unreachable!(),
    }
}

// The plan that a text spells, or the line of its first fault.
fn plan_of(alloc: Global, text: &[u8]) -> Result<Plan, NoJob>
    requires { length text.now ≤ 0x10000 }
    ensures row { Parses text.now result }
    ensures range { IfOk result IsPlanInRange }
{
    match read_plan(alloc, text) {
        Ok(plan) => Ok(plan),
        Err(fault) => {
            if fault.cause == PlanCause::Memory {
                return Err(NoJob::Memory);
            }
            let line = fault.line;
            let cause = fault.cause;
            Err(NoJob::Refused(Line::RefusedPlan { line, cause }))
        }
    }
}

// The images of volumes, in their order.
fn read_volumes<F: Files>(
    alloc: Global,
    volumes: &[PlanVolume],
    files: &mut F,
) -> Result<Seq<Seq<u8>>, NoJob>
    requires { All IsVolumeInRange volumes.now }
    ensures same { (other : List ℕ) → F.told files.new other ≡ F.told files.old other }
    ensures row { Reads (AreImages (F.told files.old) volumes.now) (IsLongVolume (F.told files.old) volumes.now)
        (IsReached (F.told files.old) volumes.now)
        (record { before = F.faults files.old; now = F.faults files.new; missed = F.missed files.new }) result }
{
    let mut images = Seq::new(alloc);
    'volumes: for volume in volumes {
        let name = text_of(volume.name.as_slice());
        match read_file(alloc, name, VOLUME_LIMIT, files) {
            Ok(image) => images.push(image)?,
            Err(no_image) => return Err(no_image),
        }
    }
    Ok(images)
}

/// The plan that a text spells, with the images of its volumes, whose files are read in their order. Or the first refusal on that way.
pub fn job_of<F: Files>(alloc: Global, text: &[u8], files: &mut F) -> Result<Job, NoJob>
    requires { length text.now ≤ 0x10000 }
    ensures same { (other : List ℕ) → F.told files.new other ≡ F.told files.old other }
    ensures row { Reads (IsJobOf (F.told files.old) text.now) (IsTextRefusal (F.told files.old) text.now)
        (IsNamedIn (F.told files.old) text.now)
        (record { before = F.faults files.old; now = F.faults files.new; missed = F.missed files.new }) result }
    ensures range { IfOk result (λ job. IsPlanInRange job.plan) }
    ensures as_many { IfOk result (λ job. length job.images ≡ length job.plan.volumes) }
    ensures short { IfOk result (λ job. All (λ image. length image ≤ 0x4000000) job.images) }
{
    let plan = plan_of(alloc, text)?;
    let images = read_volumes(alloc, plan.volumes.as_slice(), files)?;
    Ok(Job { plan, images })
}

/// The plan of this name with the images of its volumes: the plan's file is read and then, if it is a plan, the volumes' files in their order, all before any is examined. Or the first refusal on that way.
pub fn read_job<F: Files>(alloc: Global, name: &str, files: &mut F) -> Result<Job, NoJob>
    ensures same { (other : List ℕ) → F.told files.new other ≡ F.told files.old other }
    ensures row { Reads (IsJob (F.told files.old) name.now) (IsRefusal (F.told files.old) name.now) (IsNamed (F.told files.old) name.now)
        (record { before = F.faults files.old; now = F.faults files.new; missed = F.missed files.new }) result }
    ensures range { IfOk result (λ job. IsPlanInRange job.plan) }
    ensures as_many { IfOk result (λ job. length job.images ≡ length job.plan.volumes) }
    ensures short { IfOk result (λ job. All (λ image. length image ≤ 0x4000000) job.images) }
{
    let text = read_file(alloc, name, PLAN_LIMIT, files)?;
    job_of(alloc, text.as_slice(), files)
}
