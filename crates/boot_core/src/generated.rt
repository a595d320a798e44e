// The boot of a generated volume.
ghost use Rattle.std.specs.Prelude.{◌≡◌, ◌≤◌, None, IfOk, length};
ghost use Rattle.pi_base.specs.Field.{AreBytes};
ghost use Rattle.boot_core.specs.{Examining.IsExamined, Examining.IsJob, Outcome.Ends};
ghost use Rattle.boot_core.specs.GeneratedOutcome.{GeneratedOutcome, generated_images, generated_plan};
ghost use Rattle.boot_core.specs.Summing.{IsSummary, IsSummaryBy, SumsUp};
ghost use Rattle.fv_volume.specs.Generated.{generated};
ghost use Rattle.mod_catalog.specs.WellFormed.{IsWellFormed};
ghost use Rattle.store_model.specs.StoreState.{Board, empty_store};

use crate::answer::answer;
use crate::images::examine;
use crate::nowhere::Nowhere;
use crate::plan_boot::store_of;
use crate::plan_files::NoJob;
use crate::refusal::refuse;
use crate::status::{Status, status_of};
use crate::summary::{SummaryLine, put_summary, summary_of};
use crate::whole::boot_store;
use boot_io::{Halt, Sink};
use boot_model::RunEnd;
use boot_plan::{Plan, PlanVolume};
use fv_volume::build::{MOST_MODULES, generate};
use mod_catalog::Catalog;
use pi_base::{OutOfMemory, Seq, Span};
use std::alloc::Global;
use store_model::PeiStore;

/// Temporary RAM of a generated volume's boot.
pub(crate) const TEMP_BASE: u64 = 0x8000_0000;

pub(crate) const TEMP_LEN: u64 = 0x1_0000;

/// Its RAM.
pub(crate) const RAM_BASE: u64 = 0x4000_0000;

pub(crate) const RAM_LEN: u64 = 0x400_0000;

/// Where the volume is mapped.
pub(crate) const VOLUME_BASE: u64 = 0xff00_0000;

/// How many actions may be taken.
pub(crate) const FUEL: u32 = 100_000;

// The plan of a generated volume.
fn generated_plan(alloc: Global) -> Result<Plan, OutOfMemory>
    ensures plan { IfOk result (λ plan. plan ≡ generated_plan) }
{
    let mut name = Seq::new(alloc);
    name.append(b"generated")?;
    let mut volumes = Seq::new(alloc);
    volumes.push(PlanVolume {
        base: VOLUME_BASE,
        name,
    })?;
    Ok(Plan {
        temp: Span {
            base: TEMP_BASE,
            len: TEMP_LEN,
        },
        ram: Span {
            base: RAM_BASE,
            len: RAM_LEN,
        },
        volumes,
        fuel: FUEL,
        pages: 0,
    })
}

// What is said of the generated volume: its length, and that its items are bytes.
fn told_of(_volume: &[u8])
    ensures { AreBytes _volume.now }
{}

// The images of that plan: the generated volume of n modules.
fn generated_images(alloc: Global, n: u32) -> Result<Seq<Seq<u8>>, OutOfMemory>
    requires some { 1 ≤ n }
    requires most { n ≤ MOST_MODULES }
    ensures images { IfOk result (λ images. images ≡ generated_images n) }
    ensures of_bytes { IfOk result (λ _. AreBytes (generated n)) }
{
    let mut images = Seq::new(alloc);
    match generate(alloc, n) {
        Ok(volume) => {
            told_of(volume.as_slice());
            images.push(volume)?;
            Ok(images)
        }
        Err(_) => Err(OutOfMemory),
    }
}

// The summary of a boot of a generated volume, and how the boot ended.
#[derive(Drop)]
struct Summary {
    lines: [SummaryLine; 8],
    end: RunEnd,
}

// Boots n modules over a store that is as it was made, and sums that boot up.
fn sum_up_on<M: PeiStore + Drop>(
    alloc: Global,
    n: u32,
    store: M,
    catalog: &Catalog,
    fuel: u32,
) -> Result<Summary, OutOfMemory>
    requires catalog { IsWellFormed catalog.now }
    requires some { 1 ≤ length catalog.now.volumes }
    requires opening { (board : Board) × M.stands_for store (empty_store board) }
    ensures { (board : Board) → M.stands_for store (empty_store board) → IfOk result (IsSummaryBy n board catalog.now fuel) }
{
    match boot_store(alloc, store, catalog, fuel, &mut Nowhere) {
        Ok(ran) => Ok(Summary {
            lines: summary_of(n, &ran.pei, ran.end),
            end: ran.end,
        }),
        Err(Halt::Sink) => unreachable!(),
        Err(Halt::Memory) => Err(OutOfMemory),
    }
}

// Boots the generated volume of n modules, whose images have this catalogue, and sums that boot up.
fn sum_up(
    alloc: Global,
    n: u32,
    plan: &Plan,
    catalog: &Catalog,
    images: Seq<Seq<u8>>,
) -> Result<Summary, OutOfMemory>
    requires job { IsJob n plan.now images }
    requires examined { IsExamined plan.now images catalog.now }
    ensures { IfOk result (IsSummary n catalog.now) }
{
    let store = store_of(alloc, plan, catalog, images)?;
    sum_up_on(alloc, n, store, catalog, plan.fuel)
}

// Examines the images of the generated volume's plan, and then boots them and sums that boot up.
fn sum_up_examined(
    alloc: Global,
    n: u32,
    plan: &Plan,
    images: Seq<Seq<u8>>,
) -> Result<Summary, NoJob>
    requires job { IsJob n plan.now images }
    ensures { SumsUp n result }
{
    let catalog = examine(alloc, plan, images.as_slice())?;
    let summed = sum_up(alloc, n, plan, &catalog, images);
    drop(catalog);
    let summary = summed?;
    Ok(summary)
}

// Examines the generated volume of n modules, and then boots it and sums that boot up.
fn summarize(alloc: Global, n: u32) -> Result<Summary, NoJob>
    requires some { 1 ≤ n }
    requires most { n ≤ MOST_MODULES }
    ensures { SumsUp n result }
{
    let plan = generated_plan(alloc)?;
    let images = generated_images(alloc, n)?;
    sum_up_examined(alloc, n, &plan, images)
}

/// Boots the generated volume of n modules, and puts the summary of the boot in place of its lines.
pub(crate) fn boot_generated<S: Sink>(alloc: Global, n: u32, sink: &mut S) -> Status
    requires some { 1 ≤ n }
    requires most { n ≤ MOST_MODULES }
    ensures { Ends (GeneratedOutcome n) (λ _. ⊥) ⊥ result (record {
      old = S.text sink.old;
      new = S.text sink.new;
      sink_before = S.faults sink.old;
      sink_now = S.faults sink.new;
      files_before = 0;
      files_now = 0;
      missed = None;
    }) }
{
    match summarize(alloc, n) {
        Ok(summary) => {
            let put = put_summary(sink, &summary.lines);
            answer(put, status_of(summary.end))
        }
        Err(no_catalog) => refuse(no_catalog, sink),
    }
}
