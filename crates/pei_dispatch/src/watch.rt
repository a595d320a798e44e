//! Who watches a run of PEI.
ghost use Rattle.std.specs.Prelude.{ℕ, List, [], ◌∷◌};
ghost use Rattle.store_model.specs.StoreState.{Board};
ghost use Rattle.boot_model.specs.{PeiMachine.PeiMachine, PeiRun.pei_opening, declared.phase_end.PeiEnd.PeiEnd as OfEnd};
ghost use Rattle.mod_catalog.specs.{WellFormed.IsWellFormed, declared.catalogue.Catalog.Catalog as OfCatalog};
ghost use Rattle.boot_laws.specs.declared.choice.Reached.{Reached as OfReached};
ghost use Rattle.pei_core.specs.Standing.{StandsFor};
ghost use Rattle.pei_dispatch.specs.Watched.{StandsLeft, WasLast, WasStep};

use crate::PeiQueue;
use crate::answer::Step;
use boot_laws::Reached;
use boot_model::PeiEnd;
use mod_catalog::Catalog;
use pei_core::Pei;
use store_model::PeiStore;

/// Who is told of a run of PEI: of its opening, of each step, and of what the run reaches; each time with the core over its store.
pub trait PeiWatch {
    /// It was told of no run.
    ghost is_new: { Self → Type 0 };

    /// What it knows where the run has come to a machine, by the machines before that one, the last of them first.
    ghost knows: { Self → OfCatalog → ℕ → List PeiMachine → PeiMachine → Type 0 };

    /// What it knows of a run that has reached this, by its last machine and those before it.
    ghost knows_all: { Self → OfCatalog → ℕ → List PeiMachine → PeiMachine → OfReached OfEnd → Type 0 };

    /// The run is at its opening.
    fn begins<M: PeiStore + Drop>(&mut self, pei: &Pei<M>, catalog: &Catalog)
        requires new { is_new self.old }
        requires catalog { IsWellFormed catalog.now }
        requires state { (m : PeiMachine) × StandsFor M.stands_for pei.now m }
        ensures knows { (board : Board) (fuel : ℕ) → StandsFor M.stands_for pei.now (pei_opening board catalog.now)
            → knows self.new catalog.now fuel [] (pei_opening board catalog.now) };

    /// A step was taken.
    fn saw<M: PeiStore + Drop>(&mut self, step: &Step, pei: &Pei<M>, catalog: &Catalog)
        requires catalog { IsWellFormed catalog.now }
        requires state { (m : PeiMachine) × StandsFor M.stands_for pei.now m }
        ensures knows_more { (fuel : ℕ) (earlier : List PeiMachine) (m later : PeiMachine) → knows self.old catalog.now fuel earlier m
            → WasStep catalog.now fuel m later step.now → StandsFor M.stands_for pei.now later
            → knows self.new catalog.now fuel (m ∷ earlier) later };

    /// The run has come to its end, or to the start of a PEIM that is not let.
    fn ends<M: PeiStore + Drop>(
        &mut self,
        reached: &Reached<PeiEnd>,
        pei: &Pei<M>,
        queue: &PeiQueue,
        catalog: &Catalog,
    )
        requires catalog { IsWellFormed catalog.now }
        requires state { (m : PeiMachine) × StandsFor M.stands_for pei.now m }
        ensures knows_all { (fuel : ℕ) (earlier all : List PeiMachine) (m last : PeiMachine) → knows self.old catalog.now fuel earlier m
            → WasLast catalog.now fuel earlier m all last reached.now → StandsLeft M.stands_for catalog.now pei.now queue.now last reached.now
            → knows_all self.new catalog.now fuel all last reached.now };
}

/// Nobody.
#[derive(Clone, Copy)]
pub struct Unwatched;

impl PeiWatch for Unwatched {
    ghost use Rattle.std.specs.Prelude.{⊤};

    ghost is_new = { λ watch. ⊤ };

    ghost knows = { λ watch catalog fuel earlier m. ⊤ };

    ghost knows_all = { λ watch catalog fuel earlier m reached. ⊤ };

    fn begins<M: PeiStore + Drop>(&mut self, _pei: &Pei<M>, _catalog: &Catalog) {}

    fn saw<M: PeiStore + Drop>(&mut self, _step: &Step, _pei: &Pei<M>, _catalog: &Catalog) {}

    fn ends<M: PeiStore + Drop>(
        &mut self,
        _reached: &Reached<PeiEnd>,
        _pei: &Pei<M>,
        _queue: &PeiQueue,
        _catalog: &Catalog,
    ) {}
}
