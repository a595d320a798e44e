//! DXE behind a hand-off.
ghost use Rattle.std.specs.Prelude.{◌≡◌, ◌≤◌, ◌<◌, ◌^◌, ℕ, IfOk, OnOk, length};
ghost use Rattle.boot_io.specs.Halted.{HaltsAfter};
ghost use Rattle.mod_catalog.specs.WellFormed.{IsWellFormed};
ghost use Rattle.store_model.specs.{Service.Present, Service.OfEach, StoreCall.Anything};
ghost use Rattle.dxe_core.specs.Standing.{IsFor};
ghost use Rattle.boot_laws.specs.declared.choice.Reached.TheVariants as R;
ghost use Rattle.dxe_dispatch.specs.{Watched.BootsWatched, Watched.LeavesWatched, Ends.IsAtOpening, Ends.IsOpened, PassList.turn_kept};
ghost use Rattle.dxe_dispatch.specs.Choices.{handles_of, leaves, told_last};

use crate::passes::Agenda;
use crate::watch::DxeWatch;
use crate::watched::watch_dxe;
use boot_io::{Halt, Sink};
use boot_laws::{Before, Choice, Reached};
use boot_model::DxeEnd;
use depex_code::Steps;
use dxe_core::Dxe;
use dxe_core::database::Handles;
use mod_catalog::Catalog;
use pi_base::OutOfMemory;
use std::alloc::Global;
use std::marker::Brand;
use std::sync::ledger::{Blank, Ledger};
use store_model::PeiStore;

/// What DXE leaves at its end.
#[derive(Drop)]
pub struct Ended {
    /// How it ended.
    pub end: DxeEnd,
    /// The handles, with their interfaces.
    pub handles: Handles,
    /// What the choice would be told before another start.
    pub before: Before,
}

/// What DXE leaves before the start of a driver that the choice does not let.
#[derive(Drop)]
pub struct Barred {
    /// The number of the driver, which was not started.
    pub number: u32,
    /// The handles as they are there, with their interfaces.
    pub handles: Handles,
    /// What the choice was told before that start.
    pub before: Before,
}

/// What DXE leaves.
#[derive(Drop)]
pub enum Left {
    /// At its end.
    Ended(Ended),
    /// Before the start of a driver that the choice does not let.
    Barred(Barred),
}

/// The core at its opening, over a store behind the hand-off: the volumes of its FV HOBs have just been discovered. `fuel` is how many actions may be taken in both phases, and `taken` how many PEI took.
pub fn dxe_at_opening<M: PeiStore>(
    alloc: Global,
    store: &M,
    catalog: &Catalog,
    fuel: u32,
    taken: u32,
) -> Result<Dxe, OutOfMemory>
    requires catalog { IsWellFormed catalog.now }
    requires state { Present (M.stands_for store.now) Anything }
    ensures row { IfOk result (IsOpened M.stands_for store.now catalog.now taken) }
    ensures made { IfOk result (IsFor catalog.now fuel) }
{
    let bases = store.fv_bases()?;
    Dxe::begin(alloc, catalog, bases.as_slice(), fuel, taken)
}

// What a run came to, and what the choice was told last, or would be at the end.
#[derive(Clone, Copy)]
struct Run {
    reached: Reached<DxeEnd>,
    before: Before,
}

// What the choice was told last. A driver that was not let has left the queue too.
fn told_last(agenda: &Agenda, in_pei: u32, reached: Reached<DxeEnd>) -> Before
    requires few { agenda.now.queue.left < 2 ^ 32 }
    requires some { (number : ℕ) → reached ≡ R.Barred number → 1 ≤ agenda.now.queue.left }
    ensures { result ≡ told_last in_pei agenda.now.queue.left (turn_kept agenda.now.passes) reached }
{
    let before = agenda.before(in_pei);
    match reached {
        Reached::End(_) => before,
        Reached::Barred(_) => Before {
            starts: before.starts - 1,
            turn: before.turn,
        },
    }
}

// DXE from its opening, over a queue that is made for it. The expressions that are evaluated are counted in the ledger of a blank.
fn run_with_ledger<M: PeiStore, S: Sink, C: Choice<S>, W: DxeWatch, L: Ledger>(
    alloc: Global,
    dxe: &mut Dxe,
    store: &M,
    choice: &C,
    watch: &mut W,
    in_pei: u32,
    catalog: &Catalog,
    sink: &mut S,
    blank: Blank,
) -> Result<Run, Halt>
    requires catalog { IsWellFormed catalog.now }
    requires made { (fuel : ℕ) × IsFor catalog.now fuel dxe.old }
    requires opening { IsAtOpening M.stands_for store.now catalog.now dxe.old }
    requires watch { W.is_new watch.old }
    requires name { blank.name ≡ L.name }
    requires parts { blank.parts ≡ L.parts }
    requires counts { 0 < L.parts }
    ensures row { LeavesWatched (W.knows_all watch.new) (record {
      by = record { rules = C.rules choice.now; text = S.text; faults = S.faults };
      in_pei = in_pei;
    })
        M.stands_for store.now catalog.now (record {
          core = dxe.old;
          sink = sink.old;
          later = dxe.new;
          shown = sink.new;
        }) result }
    ensures few { dxe.old.fuel.taken < 2 ^ 32 → OnOk result (length dxe.new.services.handles.interfaces < 2 ^ 32) }
    ensures faults { HaltsAfter result (S.faults sink.old) (S.faults sink.new) }
{
    let mut agenda = Agenda::new(alloc, catalog, choice.wants_turn())?;
    let mut steps = Steps::<L>::new(blank);
    let reached = watch_dxe(
        dxe,
        store,
        &mut agenda,
        choice,
        watch,
        in_pei,
        catalog,
        sink,
        &mut steps,
    )?;
    let before = told_last(&agenda, in_pei, reached);
    Ok(Run { reached, before })
}

// What DXE leaves behind a run, with these handles.
fn left_by(run: Run, handles: Handles) -> Left
    ensures { result ≡ leaves handles run.before run.reached }
{
    match run.reached {
        Reached::End(end) => Left::Ended(Ended {
            end,
            handles,
            before: run.before,
        }),
        Reached::Barred(number) => Left::Barred(Barred {
            number,
            handles,
            before: run.before,
        }),
    }
}

/// The whole of DXE behind the hand-off of a store, where a choice may name the driver that starts, and says whether it does, and a watcher is told of each step. `fuel` is how many actions may be taken in both phases, `taken` how many PEI took, and `in_pei` how many starts there were in it. No more interfaces are left than a `u32` counts.
pub fn watch_boot<M: PeiStore, S: Sink, C: Choice<S>, W: DxeWatch>(
    alloc: Global,
    store: &M,
    catalog: &Catalog,
    fuel: u32,
    taken: u32,
    in_pei: u32,
    choice: &C,
    watch: &mut W,
    sink: &mut S,
) -> Result<Left, Halt>
    requires catalog { IsWellFormed catalog.now }
    requires state { Present (M.stands_for store.now) Anything }
    requires watch { W.is_new watch.old }
    ensures row { OfEach (M.stands_for store.now) Anything (BootsWatched (W.knows_all watch.new) (record {
      by = record { rules = C.rules choice.now; text = S.text; faults = S.faults };
      in_pei = in_pei;
    })
        catalog.now fuel taken (record { sink = sink.old; shown = sink.new }) result) }
    ensures few { IfOk result (λ left. length (handles_of left).interfaces < 2 ^ 32) }
    ensures faults { HaltsAfter result (S.faults sink.old) (S.faults sink.new) }
{
    let mut dxe = dxe_at_opening(alloc, store, catalog, fuel, taken)?;
    let blank = Blank::new(1);
    let run = run_with_ledger::<M, S, C, W, Brand>(
        alloc, &mut dxe, store, choice, watch, in_pei, catalog, sink, blank,
    );
    let handles = dxe.into_handles();
    Ok(left_by(run?, handles))
}
