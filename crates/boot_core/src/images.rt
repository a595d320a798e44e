// The images of a plan: examined, and then booted or audited.
ghost use Rattle.std.specs.Prelude.{◌≡◌, None, IfOk, IfErr, length, ⊤};
ghost use Rattle.boot_plan.specs.Range.{IsPlanInRange};
ghost use Rattle.boot_core.specs.declared.command_line.Command.TheVariants.{Audit, Boot};
ghost use Rattle.boot_core.specs.Examining.{AreRefused, IsExamined, IsFaultTold};
ghost use Rattle.boot_core.specs.{Handing.HandsBackOf, Wanting.IsWantedOutsidePeiOf};
ghost use Rattle.boot_core.specs.Outcome.{CommandOutcome, Ends, ImagesOutcome, kind_of};

use crate::answer::answer;
use crate::audit_print::put_audit;
use crate::plan_boot::{Booted, boot_catalog};
use crate::plan_files::NoJob;
use crate::refusal::refuse;
use crate::status::Status;
use boot_io::Sink;
use boot_laws::boards_are_sound;
use boot_model::Line;
use boot_plan::Plan;
use mod_catalog::{
    Catalog, ImageCause, ImageFault, catalog, catalogues_are_well_formed, one_catalogue,
};
use pi_base::Seq;
use std::alloc::Global;

// The refusal of an image, or want of memory.
fn refusal_of(fault: ImageFault) -> NoJob
    ensures { IsFaultTold fault result }
{
    if fault.cause == ImageCause::Memory {
        return NoJob::Memory;
    }
    NoJob::Refused(Line::RefusedImage {
        volume: fault.volume,
        at: fault.at,
        cause: fault.cause,
    })
}

/// The catalogue of a plan's images, or the refusal of their first fault.
pub fn examine(alloc: Global, plan: &Plan, images: &[Seq<u8>]) -> Result<Catalog, NoJob>
    requires in_range { IsPlanInRange plan.now }
    requires as_many { length images.now ≡ length plan.now.volumes }
    ensures found { IfOk result (IsExamined plan.now images.now) }
    ensures refused { IfErr result (AreRefused plan.now images.now) }
{
    boards_are_sound();
    catalogues_are_well_formed();
    match catalog(alloc, plan, images) {
        Ok(catalog) => Ok(catalog),
        Err(fault) => Err(refusal_of(fault)),
    }
}

/// Boots a plan over its images: their first fault is refused, or the lines of the boot of their catalogue are put, and the status is that of the run.
/// There are as many images as volumes of the plan. The store is that of the last machine, where the boot came to its end: its memory is the image of that machine's state. Memory is wanting before anything is put or behind all lines of PEI, and never in it.
pub fn boot_images<S: Sink>(
    alloc: Global,
    plan: &Plan,
    images: Seq<Seq<u8>>,
    sink: &mut S,
) -> Booted
    requires in_range { IsPlanInRange plan.now }
    requires as_many { length images ≡ length plan.now.volumes }
    ensures ends { Ends (ImagesOutcome (CommandOutcome Boot plan.now images) plan.now images) (λ _. ⊥) ⊤ result.status (record {
      old = S.text sink.old;
      new = S.text sink.new;
      sink_before = S.faults sink.old;
      sink_now = S.faults sink.new;
      files_before = 0;
      files_now = 0;
      missed = None;
    }) }
    ensures memory { IsWantedOutsidePeiOf (kind_of result.status) plan.now images
        (record { old = S.text sink.old; new = S.text sink.new }) }
    ensures store { HandsBackOf plan.now images result }
{
    one_catalogue();
    match examine(alloc, plan, images.as_slice()) {
        Ok(catalog) => {
            let booted = boot_catalog(alloc, plan, &catalog, images, sink);
            drop(catalog);
            booted
        }
        Err(no_catalog) => Booted {
            status: refuse(no_catalog, sink),
            store: None,
        },
    }
}

/// Puts the catalogue of a plan's images, or the refusal of their first fault.
pub(crate) fn audit_images<S: Sink>(
    alloc: Global,
    plan: &Plan,
    images: &[Seq<u8>],
    sink: &mut S,
) -> Status
    requires in_range { IsPlanInRange plan.now }
    requires as_many { length images.now ≡ length plan.now.volumes }
    ensures { Ends (ImagesOutcome (CommandOutcome Audit plan.now images.now) plan.now images.now) (λ _. ⊥) ⊥ result (record {
      old = S.text sink.old;
      new = S.text sink.new;
      sink_before = S.faults sink.old;
      sink_now = S.faults sink.new;
      files_before = 0;
      files_now = 0;
      missed = None;
    }) }
{
    match examine(alloc, plan, images) {
        Ok(catalog) => {
            let put = put_audit(sink, &catalog);
            drop(catalog);
            answer(put, Status::Done)
        }
        Err(no_catalog) => refuse(no_catalog, sink),
    }
}
