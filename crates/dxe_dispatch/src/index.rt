// What the index of the waiting drivers is told of one driver, and what it tells.
ghost use Rattle.std.specs.Prelude.{◌≡◌, ◌≤◌, ◌+◌};
ghost use Rattle.mod_catalog.specs.WellFormed.{IsWellFormed};
ghost use Rattle.pi_base.specs.declared.phase.Phase.TheVariants.{Dxe};
ghost use Rattle.boot_model.specs.DxeChoice as C;
ghost use Rattle.boot_model.specs.DxeMachine.{DxeMachine};
ghost use Rattle.wait_index.specs.Dispatch.{StandsForDxe};
ghost use Rattle.wait_index.specs.Index.{IsIndex, IsSame, owed};
ghost use Rattle.dxe_dispatch.specs.{Aim.may_be_next, Index.IsRequested, Index.WaitsNoMore};

use depex_code::Steps;
use mod_catalog::Catalog;
use std::sync::ledger::Ledger;
use wait_index::{WaitIndex, next_is_the_first_eligible_driver};

/// A driver waits no more.
pub(crate) fn leave(index: &mut WaitIndex, number: u32)
    ensures { WaitsNoMore number index.old index.new }
{
    if let Some(place) = index.place_of(number) {
        index.started(place as usize);
    }
}

/// A driver is requested.
pub(crate) fn admit(index: &mut WaitIndex, number: u32)
    ensures { IsRequested number index.old index.new }
{
    if let Some(place) = index.place_of(number) {
        index.gate(place as usize, true);
    }
}

/// The first driver in discovered order that waits and may start. The expressions that may say something new are evaluated before.
pub(crate) fn first_that_may_start<L: Ledger>(
    index: &mut WaitIndex,
    catalog: &Catalog,
    steps: &mut Steps<L>,
) -> Option<u32>
    requires catalog { IsWellFormed catalog.now }
    requires index { IsIndex catalog.now index.old }
    requires phase { index.old.phase ≡ Dxe }
    ensures first { (m : DxeMachine) → StandsForDxe catalog.now m index.old → C.first_eligible catalog.now m ≡ result }
    ensures index { IsIndex catalog.now index.new }
    ensures same { IsSame index.old index.new }
    ensures few_steps { steps.new + owed index.new ≤ steps.old + owed index.old }
{
    next_is_the_first_eligible_driver();
    index.settle(catalog, steps);
    match index.next(0) {
        Some(place) => index.module_at(place),
        None => None,
    }
}

/// Whether a driver waits and may start: then it is the first that may from its own place on. The expressions that may say something new are evaluated before.
pub(crate) fn may_start<L: Ledger>(
    index: &mut WaitIndex,
    catalog: &Catalog,
    number: u32,
    steps: &mut Steps<L>,
) -> bool
    requires catalog { IsWellFormed catalog.now }
    requires index { IsIndex catalog.now index.old }
    requires phase { index.old.phase ≡ Dxe }
    ensures may { (m : DxeMachine) → StandsForDxe catalog.now m index.old → may_be_next catalog.now m number ≡ result }
    ensures index { IsIndex catalog.now index.new }
    ensures same { IsSame index.old index.new }
    ensures few_steps { steps.new + owed index.new ≤ steps.old + owed index.old }
{
    index.settle(catalog, steps);
    match index.place_of(number) {
        Some(place) => index.next(place as usize) == Some(place as usize),
        None => false,
    }
}
