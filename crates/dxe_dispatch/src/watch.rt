//! Who watches a run of DXE.
ghost use Rattle.std.specs.Prelude.{ℕ, List, [], ◌∷◌};
ghost use Rattle.store_model.specs.StoreState.{StoreState};
ghost use Rattle.boot_model.specs.{DxeMachine.DxeMachine, DxeRun.dxe_opening, DxeStep.dxe_step, declared.phase_end.DxeEnd.DxeEnd as OfEnd};
ghost use Rattle.mod_catalog.specs.{WellFormed.IsWellFormed, declared.catalogue.Catalog.Catalog as OfCatalog};
ghost use Rattle.boot_laws.specs.declared.choice.Reached.{Reached as OfReached};
ghost use Rattle.dxe_core.specs.Standing.{StandsFor};
ghost use Rattle.dxe_dispatch.specs.{Choices.came, Ends.IsNow};
ghost use Rattle.dxe_dispatch.specs.Watched.{StandsLeft, WasLast, WasStep};

use crate::DriverQueue;
use crate::answer::Step;
use boot_laws::Reached;
use boot_model::DxeEnd;
use dxe_core::Dxe;
use mod_catalog::Catalog;
use store_model::PeiStore;

/// Who is told of a run of DXE: of its opening, of each step, and of what the run reaches; each time with the core, its store and the queue.
pub trait DxeWatch {
    /// It was told of no run.
    ghost is_new: { Self → Type 0 };

    /// What it knows of a run from an opening, by the machines from which the steps so far were taken, the last of them first.
    ghost knows: { Self → OfCatalog → ℕ → DxeMachine → List DxeMachine → Type 0 };

    /// What it knows of a run that has reached this.
    ghost knows_all: { Self → OfCatalog → ℕ → DxeMachine → List DxeMachine → OfReached OfEnd → Type 0 };

    /// The run is at its opening.
    fn begins<M: PeiStore>(&mut self, dxe: &Dxe, store: &M, queue: &DriverQueue, catalog: &Catalog)
        requires new { is_new self.old }
        requires catalog { IsWellFormed catalog.now }
        requires state { (m : DxeMachine) × IsNow M.stands_for store.now catalog.now dxe.now queue.now m }
        ensures knows { (s : StoreState) (actions fuel : ℕ)
            → IsNow M.stands_for store.now catalog.now dxe.now queue.now (dxe_opening catalog.now s actions)
            → knows self.new catalog.now fuel (dxe_opening catalog.now s actions) [] };

    /// A step was taken.
    fn saw<M: PeiStore>(
        &mut self,
        step: &Step,
        dxe: &Dxe,
        store: &M,
        queue: &DriverQueue,
        catalog: &Catalog,
    )
        requires catalog { IsWellFormed catalog.now }
        requires state { (m : DxeMachine) × IsNow M.stands_for store.now catalog.now dxe.now queue.now m }
        ensures knows_more { (fuel : ℕ) (opening : DxeMachine) (earlier : List DxeMachine) (target : DxeMachine)
            → knows self.old catalog.now fuel opening earlier → WasStep catalog.now fuel (came catalog.now fuel opening earlier) target step.now
            → IsNow M.stands_for store.now catalog.now dxe.now queue.now (dxe_step catalog.now fuel target)
            → knows self.new catalog.now fuel opening (target ∷ earlier) };

    /// The run has come to its end, or to the start of a driver that is not let.
    fn ends<M: PeiStore>(
        &mut self,
        reached: &Reached<DxeEnd>,
        dxe: &Dxe,
        store: &M,
        queue: &DriverQueue,
        catalog: &Catalog,
    )
        requires catalog { IsWellFormed catalog.now }
        requires state { (m : DxeMachine) × StandsFor M.stands_for store.now catalog.now dxe.now m }
        ensures knows_all { (fuel : ℕ) (opening : DxeMachine) (earlier all : List DxeMachine)
            → knows self.old catalog.now fuel opening earlier → WasLast catalog.now fuel opening earlier all reached.now
            → StandsLeft M.stands_for store.now catalog.now dxe.now queue.now (came catalog.now fuel opening all) reached.now
            → knows_all self.new catalog.now fuel opening all reached.now };
}

/// Nobody.
#[derive(Clone, Copy)]
pub struct Unwatched;

impl DxeWatch for Unwatched {
    ghost use Rattle.std.specs.Prelude.{⊤};

    ghost is_new = { λ watch. ⊤ };

    ghost knows = { λ watch catalog fuel opening earlier. ⊤ };

    ghost knows_all = { λ watch catalog fuel opening all reached. ⊤ };

    fn begins<M: PeiStore>(
        &mut self,
        _dxe: &Dxe,
        _store: &M,
        _queue: &DriverQueue,
        _catalog: &Catalog,
    ) {}

    fn saw<M: PeiStore>(
        &mut self,
        _step: &Step,
        _dxe: &Dxe,
        _store: &M,
        _queue: &DriverQueue,
        _catalog: &Catalog,
    ) {}

    fn ends<M: PeiStore>(
        &mut self,
        _reached: &Reached<DxeEnd>,
        _dxe: &Dxe,
        _store: &M,
        _queue: &DriverQueue,
        _catalog: &Catalog,
    ) {}
}
