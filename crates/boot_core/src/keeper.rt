//! What PEI hands on is kept by who watches it.
ghost use Rattle.std.specs.Prelude.{◌≡◌, Some, Result, IfOk};
ghost use Rattle.pi_base.specs.declared.memory.OutOfMemory.{OutOfMemory as OfOutOfMemory};
ghost use Rattle.boot_model.specs.PeiMachine.{PeiMachine};
ghost use Rattle.store_model.specs.{Service.Present, StoreCall.Anything};
ghost use Rattle.boot_core.specs.{HandOff.HandsOn, declared.handing_on.HandOff.HandOff as OfHandOff};

use crate::handing_on::HandOff;
use boot_laws::{Before, Choice, Reached};
use boot_model::{PeiEnd, RunEnd};
use boot_trace::hob_list;
use mod_catalog::Catalog;
use pei_core::Pei;
use pei_dispatch::{PeiQueue, PeiWatch, Step};
use pi_base::OutOfMemory;
use std::alloc::Global;
use store_model::PeiStore;

/// What a PEI hands on that has ended so, over its store.
pub fn handed_by<M: PeiStore>(alloc: Global, end: PeiEnd, store: &M) -> Result<HandOff, OutOfMemory>
    requires state { Present (M.stands_for store.now) Anything }
    ensures { IfOk result
        (λ handed. (m : PeiMachine) → M.stands_for store.now m.store → m.ended ≡ Some end → HandsOn m handed) }
{
    match end {
        PeiEnd::Handoff => Ok(HandOff::Hobs(hob_list(alloc, store)?)),
        PeiEnd::NoMemory => Ok(HandOff::Ended(RunEnd::NoMemory)),
        PeiEnd::NoIpl => Ok(HandOff::Ended(RunEnd::NoIpl)),
        PeiEnd::Spent => Ok(HandOff::Ended(RunEnd::Spent)),
        PeiEnd::Deep => Ok(HandOff::Ended(RunEnd::Deep)),
    }
}

/// Keeps what PEI hands on at its end.
#[derive(Drop)]
pub(crate) struct Keeper {
    alloc: Global,
    kept: Option<Result<HandOff, OutOfMemory>>,
}

impl Keeper {
    /// Nothing is kept yet.
    pub(crate) fn new(alloc: Global) -> Self {
        Keeper { alloc, kept: None }
    }

    /// What was kept, or want of memory.
    pub(crate) fn into_kept(self) -> Result<HandOff, OutOfMemory>
        ensures { (handed : Result OfHandOff OfOutOfMemory) → self.kept ≡ Some handed → result ≡ handed }
    {
        match self.kept {
            Some(handed) => handed,
            None => Err(OutOfMemory),
        }
    }
}

impl PeiWatch for Keeper {
    ghost use Rattle.std.specs.Prelude.{⊤};
    ghost use Rattle.boot_core.specs.HandOff.{IsKept};

    ghost is_new = { λ keeper. ⊤ };

    ghost knows = { λ keeper catalog fuel earlier m. ⊤ };

    ghost knows_all = { λ keeper catalog fuel all last reached. IsKept keeper.kept last reached };

    fn begins<M: PeiStore + Drop>(&mut self, _pei: &Pei<M>, _catalog: &Catalog) {}

    fn saw<M: PeiStore + Drop>(&mut self, _step: &Step, _pei: &Pei<M>, _catalog: &Catalog) {}

    fn ends<M: PeiStore + Drop>(
        &mut self,
        reached: &Reached<PeiEnd>,
        pei: &Pei<M>,
        _queue: &PeiQueue,
        _catalog: &Catalog,
    ) {
        if let Reached::End(end) = reached {
            self.kept = Some(handed_by(self.alloc, *end, pei.store()));
        }
    }
}

/// The first PEIM that may start does, and no driver: the boot is left before the first one.
#[derive(Clone, Copy)]
pub(crate) struct NoDriver;

impl<S> Choice<S> for NoDriver {
    ghost use Rattle.boot_laws.specs.Naming.{first_eligible_rules};
    ghost use Rattle.std.specs.Prelude.{false};

    ghost rules = { λ choice. record first_eligible_rules { lets_in_dxe = λ before number. false } };

    fn wants_turn(&self) -> bool {
        false
    }

    fn peim(&self, _sink: &S, _before: Before) -> Option<u32> {
        None
    }

    fn driver(&self, _sink: &S, _before: Before) -> Option<u32> {
        None
    }

    fn lets_peim(&self, _before: Before, _number: u32) -> bool {
        true
    }

    fn lets_driver(&self, _before: Before, _number: u32) -> bool {
        false
    }
}
