// The boot of a plan whose images have a catalogue.
ghost use Rattle.std.specs.Prelude.{◌≤◌, IfErr, IfOk, None, false, length, ⊤};
ghost use Rattle.store_model.specs.{StateFacts.IsBoard, StoreState.empty_store};
ghost use Rattle.mem_store.specs.MemState.{StandsFor};
ghost use Rattle.boot_model.specs.PlanBoard.{board_of};
ghost use Rattle.mod_catalog.specs.WellFormed.{IsWellFormed};
ghost use Rattle.boot_core.specs.{Handing.HandsBack, Handing.IsBooted, Wanting.IsWantedOutsidePei};
ghost use Rattle.boot_core.specs.Outcome.{Ends, BootOutcome, kind_of};
ghost use Rattle.boot_core.specs.FirstBoot.{RunsTo, WantsOutsidePei};
ghost use Rattle.boot_io.specs.Halted.{HaltsAfter};

use crate::status::{Status, status_of};
use crate::whole::{Ran, boot_store, roms};
use boot_io::{Halt, Sink};
use boot_laws::{dxe_runs_end, pei_runs_end};
use boot_plan::Plan;
use mem_store::MemStore;
use mod_catalog::Catalog;
use pi_base::{OutOfMemory, Seq};
use std::alloc::Global;

/// What a boot answers.
#[derive(Drop)]
pub struct Booted {
    /// How it ended, or why it did not come to its end.
    pub status: Status,
    /// The store of the last machine; None where the boot did not come to its end.
    pub store: Option<MemStore>,
}

// The answer of a boot that ran, or of why it did not come to its end.
fn answer_run(ran: Result<Ran<MemStore>, Halt>) -> Booted
    ensures { IsBooted ran result }
{
    match ran {
        Ok(ran) => Booted {
            status: status_of(ran.end),
            store: Some(ran.pei.store),
        },
        Err(Halt::Sink) => Booted {
            status: Status::SinkFault,
            store: None,
        },
        Err(Halt::Memory) => Booted {
            status: Status::Memory,
            store: None,
        },
    }
}

/// The store of a plan as it is made, with the images mapped as the catalogue says.
pub fn store_of(
    alloc: Global,
    plan: &Plan,
    catalog: &Catalog,
    images: Seq<Seq<u8>>,
) -> Result<MemStore, OutOfMemory>
    requires { IsBoard (board_of plan.now catalog.now images) }
    ensures { IfOk result (λ store. StandsFor store (empty_store (board_of plan.now catalog.now images))) }
{
    let roms = roms(alloc, catalog.volumes.as_slice(), images)?;
    MemStore::new(alloc, plan.temp, plan.pages, plan.ram, roms)
}

// Boots a plan whose images have this catalogue, from its first line to its last.
fn boot_plan<S: Sink>(
    alloc: Global,
    plan: &Plan,
    catalog: &Catalog,
    images: Seq<Seq<u8>>,
    sink: &mut S,
) -> Result<Ran<MemStore>, Halt>
    requires board { IsBoard (board_of plan.now catalog.now images) }
    requires catalog { IsWellFormed catalog.now }
    requires some { 1 ≤ length catalog.now.volumes }
    ensures row { RunsTo StandsFor (board_of plan.now catalog.now images) catalog.now plan.now.fuel
        (record { old = S.text sink.old; new = S.text sink.new }) result }
    ensures memory { IfErr result (WantsOutsidePei false (board_of plan.now catalog.now images) catalog.now plan.now.fuel
        (record { old = S.text sink.old; new = S.text sink.new })) }
    ensures faults { HaltsAfter result (S.faults sink.old) (S.faults sink.new) }
{
    let store = store_of(alloc, plan, catalog, images)?;
    boot_store(alloc, store, catalog, plan.fuel, sink)
}

/// Boots a plan whose images have this catalogue, and answers the status of its run, with the store.
pub(crate) fn boot_catalog<S: Sink>(
    alloc: Global,
    plan: &Plan,
    catalog: &Catalog,
    images: Seq<Seq<u8>>,
    sink: &mut S,
) -> Booted
    requires board { IsBoard (board_of plan.now catalog.now images) }
    requires catalog { IsWellFormed catalog.now }
    requires some { 1 ≤ length catalog.now.volumes }
    ensures ends { Ends (BootOutcome plan.now catalog.now images) (λ _. ⊥) ⊤ result.status (record {
      old = S.text sink.old;
      new = S.text sink.new;
      sink_before = S.faults sink.old;
      sink_now = S.faults sink.new;
      files_before = 0;
      files_now = 0;
      missed = None;
    }) }
    ensures memory { IsWantedOutsidePei (kind_of result.status) (board_of plan.now catalog.now images) catalog.now plan.now.fuel
        (record { old = S.text sink.old; new = S.text sink.new }) }
    ensures store { HandsBack plan.now catalog.now images result }
{
    pei_runs_end();
    dxe_runs_end();
    let ran = boot_plan(alloc, plan, catalog, images, sink);
    answer_run(ran)
}
