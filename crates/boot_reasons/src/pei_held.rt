// The parts that wait at the end of PEI.
ghost use Rattle.std.specs.Prelude.{◌≡◌, IfOk, option_to_list};
ghost use Rattle.boot_model.specs.{PeiChoice.pei_order, PeiMachine.PeiMachine};
ghost use Rattle.boot_model.specs.PeiStep as P;
ghost use Rattle.pei_core.specs.Standing.{StandsFor};
ghost use Rattle.boot_reasons.specs.{Noting.giver_in, PeiReasons.pei_held, PeiReasons.pei_held_for};

use crate::givers::Givers;
use crate::needs::needs_of;
use crate::waiters::push_held;
use boot_model::state_of;
use explain_text::{Held, change_for};
use mod_catalog::Catalog;
use pei_core::Pei;
use pei_dispatch::reason_of;
use phase_parts::part_of;
use pi_base::{OutOfMemory, Phase, Seq};
use std::alloc::Global;
use store_model::PeiStore;

// The part of a module, if it waits.
fn held_of<M: PeiStore + Drop>(
    alloc: Global,
    pei: &Pei<M>,
    catalog: &Catalog,
    givers: &Givers,
    number: u32,
) -> Result<Option<Held>, OutOfMemory>
    requires state { (m : PeiMachine) × StandsFor M.stands_for pei.now m }
    ensures { (m : PeiMachine) → StandsFor M.stands_for pei.now m → IfOk result (λ held. option_to_list held
        ≡ pei_held_for catalog.now m.store (giver_in givers.now.map) number (P.reason_of catalog.now m number)) }
{
    let reason = match reason_of(catalog, number, state_of(pei.states(), number)) {
        Some(reason) => reason,
        None => return Ok(None),
    };
    let part = match part_of(catalog, Phase::Pei, number) {
        Some(part) => part,
        None => return Ok(None),
    };
    let needs = needs_of(alloc, givers, Phase::Pei, part)?;
    let Ok(change) = change_for(alloc, pei.store(), Phase::Pei, &part.expr) else {
        drop(needs);
        return Err(OutOfMemory);
    };
    Ok(Some(Held {
        number,
        phase: Phase::Pei,
        reason,
        needs,
        change,
    }))
}

/// Those of these parts that wait.
pub(crate) fn held_parts<M: PeiStore + Drop>(
    alloc: Global,
    pei: &Pei<M>,
    catalog: &Catalog,
    givers: &Givers,
    order: &[u32],
) -> Result<Seq<Held>, OutOfMemory>
    requires state { (m : PeiMachine) × StandsFor M.stands_for pei.now m }
    ensures { (m : PeiMachine) → StandsFor M.stands_for pei.now m → order.now ≡ pei_order catalog.now m.reported
        → IfOk result (λ held. held ≡ pei_held catalog.now m (giver_in givers.now.map)) }
{
    let mut held = Seq::new(alloc);
    let mut rest = order;
    'parts: while let [number, after @ ..] = rest {
        let part = held_of(alloc, pei, catalog, givers, *number)?;
        push_held(&mut held, part)?;
        rest = after;
    }
    Ok(held)
}
