// The boot of a plan, explained.
ghost use Rattle.std.specs.Prelude.{◌≡◌, ◌≤◌, ◌++◌, IfOk, length};
ghost use Rattle.boot_plan.specs.Range.{IsPlanInRange};
ghost use Rattle.boot_core.specs.Examining.{IsExamined};
ghost use Rattle.explain_text.specs.{Lines.IsCatalogText, Text.explained_text};
ghost use Rattle.mod_catalog.specs.declared.limits.TheConstants.{MOST_MODULES};
ghost use Rattle.tools_core.specs.Ends.{Tells};
ghost use Rattle.tools_core.specs.ExplainReport.{ExplainReport, IsExplanation, RunsItself};

use crate::hobs_tool::image_report;
use crate::report::Report;
use boot_core::examine;
use boot_core::plan_files::{Job, NoJob};
use boot_plan::Plan;
use boot_reasons::explain_plan;
use explain_text::catalog::put_catalog;
use explain_text::{Explained, put_explained};
use mod_catalog::Catalog;
use pi_base::{OutOfMemory, Seq};
use std::alloc::Global;

/// The text of a catalogue: what is in the images.
pub(crate) fn catalog_text(
    alloc: Global,
    catalog: &Catalog,
    images: &[Seq<u8>],
) -> Result<Seq<u8>, OutOfMemory>
    requires { length catalog.now.modules ≤ MOST_MODULES }
    ensures { IfOk result (IsCatalogText catalog.now.volumes images.now catalog.now.modules) }
{
    let mut text = Seq::new(alloc);
    put_catalog(alloc, &mut text, catalog, images)?;
    Ok(text)
}

/// A catalogue's text, and after it the run.
pub(crate) fn with_run(
    alloc: Global,
    front: Seq<u8>,
    catalog: &Catalog,
    explained: &Explained,
) -> Result<Seq<u8>, OutOfMemory>
    requires { length catalog.now.modules ≤ MOST_MODULES }
    ensures { IfOk result (λ text. text ≡ front ++ explained_text catalog.now.modules explained.now) }
{
    let mut text = front;
    put_explained(alloc, &mut text, catalog, explained)?;
    Ok(text)
}

// The text of a boot, explained: what is in the images, and then the run.
fn explanation(
    alloc: Global,
    plan: &Plan,
    catalog: &Catalog,
    images: Seq<Seq<u8>>,
) -> Result<Seq<u8>, OutOfMemory>
    requires { IsExamined plan.now images catalog.now }
    ensures { IfOk result (IsExplanation (RunsItself plan.now images catalog.now) images catalog.now) }
{
    let front = catalog_text(alloc, catalog, images.as_slice())?;
    let explained = explain_plan(alloc, plan, catalog, images)?;
    with_run(alloc, front, catalog, &explained)
}

/// What a plan and the images of its volumes lead to.
pub(crate) fn explain_report(alloc: Global, job: Job) -> Result<Report, OutOfMemory>
    requires in_range { IsPlanInRange job.plan }
    requires as_many { length job.images ≡ length job.plan.volumes }
    ensures { IfOk result (Tells (ExplainReport job.plan job.images)) }
{
    let Job { plan, images } = job;
    match examine(alloc, &plan, images.as_slice()) {
        Ok(catalog) => Ok(Report::Answer(explanation(alloc, &plan, &catalog, images)?)),
        Err(NoJob::Refused(line)) => Ok(image_report(line)),
        Err(NoJob::Memory) => Err(OutOfMemory),
    }
}
