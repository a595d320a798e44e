// Explaining the boot that a trace records.
ghost use Rattle.std.specs.Prelude.{◌≡◌, ◌≤◌, ◌<◌, ◌-◌, ◌^◌, ℕ, List, IfOk, length};
ghost use Rattle.boot_core.specs.Examining.{IsExamined};
ghost use Rattle.boot_plan.specs.Range.{IsPlanInRange};
ghost use Rattle.recorded_boot.specs.{Checking.IsChecked, declared.trace.verdict.Verdict.TheVariants.Yes, Named.AreNames};
ghost use Rattle.trace_reader.specs.Trace.{IsTrace};
ghost use Rattle.tools_core.specs.{declared.command_line.TraceTool.TheVariants.Explain, Ends.Tells, ExplainReport.IsExplanation};
ghost use Rattle.tools_core.specs.{ToldReport.RunsInOrder, TraceReport.TraceReport};

use crate::by_starts::ByStarts;
use crate::explain_tool::{catalog_text, with_run};
use crate::hobs_tool::image_report;
use crate::report::Report;
use boot_core::examine;
use boot_core::plan_files::{Job, NoJob};
use boot_laws::Reached;
use boot_model::Line;
use boot_plan::Plan;
use boot_reasons::explain_plan_by;
use explain_text::Explained;
use mod_catalog::{Catalog, one_catalogue};
use pi_base::{OutOfMemory, Seq};
use recorded_boot::follow::ByOrder;
use recorded_boot::order::{Names, NamesFault, order_of};
use recorded_boot::trace::{CheckFault, Verdict, check};
use std::alloc::Global;
use trace_reader::{TraceFault, read_trace};

// A copy of an image.
fn image_copied(alloc: Global, image: &[u8]) -> Result<Seq<u8>, OutOfMemory>
    ensures { IfOk result (λ copy. copy ≡ image.now) }
{
    let mut copy = Seq::new(alloc);
    copy.append(image)?;
    Ok(copy)
}

/// A copy of images.
pub(crate) fn copied(alloc: Global, images: &[Seq<u8>]) -> Result<Seq<Seq<u8>>, OutOfMemory>
    ensures { IfOk result (λ copies. copies ≡ images.now) }
{
    let mut copies = Seq::new(alloc);
    'images: for image in images {
        copies.push(image_copied(alloc, image.as_slice())?)?;
    }
    Ok(copies)
}

// The boot in an order of starts, explained.
fn run_explained(
    alloc: Global,
    plan: &Plan,
    by: ByOrder<'_>,
    images: Seq<Seq<u8>>,
) -> Result<Explained, OutOfMemory>
    requires examined { IsExamined plan.now images by.catalog.now }
    requires names { AreNames by.catalog.now (length by.catalog.now.modules) by.names.now.volumes.items }
    ensures { IfOk result (RunsInOrder plan.now images by.entry.catalog.now by.entry.order.now) }
{
    match explain_plan_by(alloc, plan, by.catalog, images, &ByStarts::new(by))? {
        Reached::End(explained) => Ok(explained),
        // Each start is allowed.
        Reached::Barred(_) => unreachable!(),
    }
}

// The text of a boot in an order of starts, explained: what is in the images, and then the run.
fn explanation(
    alloc: Global,
    plan: &Plan,
    by: ByOrder<'_>,
    images: Seq<Seq<u8>>,
) -> Result<Seq<u8>, OutOfMemory>
    requires examined { IsExamined plan.now images by.catalog.now }
    requires names { AreNames by.catalog.now (length by.catalog.now.modules) by.names.now.volumes.items }
    ensures { IfOk result
        (IsExplanation (RunsInOrder plan.now images by.entry.catalog.now by.entry.order.now) images by.entry.catalog.now) }
{
    let front = catalog_text(alloc, by.catalog, images.as_slice())?;
    let explained = run_explained(alloc, plan, by, images)?;
    with_run(alloc, front, by.catalog, &explained)
}

// What the lines of a trace lead to that was checked, over the catalogue of the images: the boot in the order of their starts.
fn order_report(
    alloc: Global,
    plan: &Plan,
    images: Seq<Seq<u8>>,
    catalog: &Catalog,
    lines: &[Line],
) -> Result<Report, OutOfMemory>
    requires examined { IsExamined plan.now images catalog.now }
    requires few { length lines.now < 2 ^ 32 - 1 }
    ensures { (text : List ℕ) → IsChecked plan.now images text Yes → IsTrace text lines.now
        → IfOk result (Tells (TraceReport Explain plan.now images text)) }
{
    one_catalogue();
    let names = match Names::build(alloc, catalog) {
        Ok(names) => names,
        Err(NamesFault::Twins { volume }) => return Ok(Report::Twins(volume)),
        Err(NamesFault::Memory) => return Err(OutOfMemory),
    };
    let order = order_of(alloc, lines)?;
    let by = ByOrder {
        order: &order,
        catalog,
        names: &names,
    };
    Ok(Report::Answer(explanation(alloc, plan, by, images)?))
}

// What the lines of a trace lead to that was checked: the boot in the order of their starts.
fn lines_report(
    alloc: Global,
    plan: &Plan,
    images: Seq<Seq<u8>>,
    lines: &[Line],
) -> Result<Report, OutOfMemory>
    requires in_range { IsPlanInRange plan.now }
    requires as_many { length images ≡ length plan.now.volumes }
    requires few { length lines.now < 2 ^ 32 - 1 }
    ensures { (text : List ℕ) → IsChecked plan.now images text Yes → IsTrace text lines.now
        → IfOk result (Tells (TraceReport Explain plan.now images text)) }
{
    match examine(alloc, plan, images.as_slice()) {
        Ok(catalog) => order_report(alloc, plan, images, &catalog, lines),
        Err(NoJob::Refused(line)) => Ok(image_report(line)),
        Err(NoJob::Memory) => Err(OutOfMemory),
    }
}

// What a text leads to that is a free boot's.
fn read_report(
    alloc: Global,
    plan: &Plan,
    images: Seq<Seq<u8>>,
    text: &[u8],
) -> Result<Report, OutOfMemory>
    requires in_range { IsPlanInRange plan.now }
    requires as_many { length images ≡ length plan.now.volumes }
    requires text { length text.now ≤ 0x4000000 }
    requires checked { IsChecked plan.now images text.now Yes }
    ensures { IfOk result (Tells (TraceReport Explain plan.now images text.now)) }
{
    match read_trace(alloc, text) {
        Ok(lines) => lines_report(alloc, plan, images, lines.as_slice()),
        // No boot that was tried prints a line that cannot be read.
        Err(TraceFault::Bad { line }) => Ok(Report::Verdict(Verdict::No { line })),
        Err(TraceFault::Memory) => Err(OutOfMemory),
    }
}

/// The report for a plan, the images of its volumes and the text of a trace: an explanation of the boot that the trace records. The check copies the images.
pub(crate) fn told_report(alloc: Global, job: Job, text: &[u8]) -> Result<Report, OutOfMemory>
    requires in_range { IsPlanInRange job.plan }
    requires as_many { length job.images ≡ length job.plan.volumes }
    requires text { length text.now ≤ 0x4000000 }
    ensures { IfOk result (Tells (TraceReport Explain job.plan job.images text.now)) }
{
    let Job { plan, images } = job;
    let copies = copied(alloc, images.as_slice())?;
    match check(alloc, &plan, copies, text) {
        Ok(Verdict::Yes) => read_report(alloc, &plan, images, text),
        Ok(Verdict::No { line }) => Ok(Report::Verdict(Verdict::No { line })),
        Err(CheckFault::Image(fault)) => Ok(Report::Image(fault)),
        Err(CheckFault::Twins { volume }) => Ok(Report::Twins(volume)),
        Err(CheckFault::Memory) => Err(OutOfMemory),
    }
}
