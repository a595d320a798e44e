//! A boot by a choice, explained.
ghost use Rattle.std.specs.Prelude.{◌≡◌, ◌≤◌, ◌++◌, IfOk, length};
ghost use Rattle.boot_model.specs.{BootRun.dxe_result, PeiMachine.PeiMachine, declared.phase_end.PeiEnd.TheVariants.Handoff};
ghost use Rattle.mod_catalog.specs.WellFormed.{IsWellFormed};
ghost use Rattle.boot_model.specs.PeiRun.{pei_opening};
ghost use Rattle.pei_core.specs.Standing.{IsFor, StandsFor};
ghost use Rattle.store_model.specs.StoreState.{Board, empty_store};
ghost use Rattle.boot_reasons.specs.{Explained.ExplainsBehind, Explained.ExplainsTo, Joining.alone, Joining.together, Unseen.choices_of};

use crate::dxe::{DxeExplained, explain_dxe};
use crate::nowhere::Nowhere;
use crate::pei::{PeiExplained, explain_pei};
use boot_laws::{Choice, Reached};
use boot_model::{DxeEnd, PeiEnd, RunEnd};
use explain_text::Explained;
use mod_catalog::Catalog;
use pei_core::Pei;
use pi_base::{OutOfMemory, Seq};
use std::alloc::Global;
use store_model::PeiStore;

// One list behind the other.
fn chain<T: Drop>(first: Seq<T>, second: Seq<T>) -> Result<Seq<T>, OutOfMemory>
    ensures { IfOk result (λ all. all ≡ first ++ second) }
{
    let mut all = first.into_vec();
    let mut more = second.into_vec();
    match all.append(&mut more) {
        Ok(()) => Ok(Seq::from_vec(all)),
        Err(_) => Err(OutOfMemory),
    }
}

// A boot that ends with PEI.
fn alone(pei: PeiExplained, actions: u32, end: RunEnd) -> Explained
    ensures { result ≡ alone pei actions end }
{
    let alloc = pei.reported.alloc();
    Explained {
        begun: pei.begun,
        held: pei.held,
        reported: pei.reported,
        discovered: Seq::new(alloc),
        moved: pei.moved,
        heap: pei.heap,
        actions,
        result: end,
    }
}

// The result of a boot whose DXE ended so.
fn dxe_result(end: DxeEnd) -> RunEnd
    ensures { result ≡ dxe_result end }
{
    match end {
        DxeEnd::Done => RunEnd::Done,
        DxeEnd::Spent => RunEnd::Spent,
        DxeEnd::Deep => RunEnd::Deep,
    }
}

// A boot that ends with DXE.
fn together(pei: PeiExplained, dxe: DxeExplained) -> Result<Explained, OutOfMemory>
    ensures { IfOk result (λ explained. explained ≡ together pei dxe) }
{
    Ok(Explained {
        begun: chain(pei.begun, dxe.begun)?,
        held: chain(pei.held, dxe.held)?,
        reported: pei.reported,
        discovered: dxe.discovered,
        moved: pei.moved,
        heap: pei.heap,
        actions: dxe.actions,
        result: dxe_result(dxe.end),
    })
}

// The whole of a boot behind a hand-off.
fn explain_drivers<M: PeiStore + Drop, C: Choice<Nowhere>>(
    alloc: Global,
    pei: &Pei<M>,
    explained: PeiExplained,
    catalog: &Catalog,
    fuel: u32,
    choice: &C,
) -> Result<Reached<Explained>, OutOfMemory>
    requires catalog { IsWellFormed catalog.now }
    requires state { (m : PeiMachine) × StandsFor M.stands_for pei.now m }
    requires handed { explained.end ≡ Handoff }
    ensures { IfOk result (ExplainsBehind (choices_of (C.rules choice.now) catalog.now fuel)
        M.stands_for catalog.now fuel pei.now explained) }
{
    match explain_dxe(
        alloc,
        pei.store(),
        catalog,
        fuel,
        pei.actions(),
        pei.starts(),
        choice,
    ) {
        Ok(Reached::End(drivers)) => match together(explained, drivers) {
            Ok(all) => Ok(Reached::End(all)),
            Err(OutOfMemory) => Err(OutOfMemory),
        },
        Ok(Reached::Barred(number)) => {
            drop(explained);
            Ok(Reached::Barred(number))
        }
        Err(OutOfMemory) => {
            drop(explained);
            Err(OutOfMemory)
        }
    }
}

// The whole of a boot behind PEI.
fn explain_behind<M: PeiStore + Drop, C: Choice<Nowhere>>(
    alloc: Global,
    pei: &Pei<M>,
    explained: PeiExplained,
    catalog: &Catalog,
    fuel: u32,
    choice: &C,
) -> Result<Reached<Explained>, OutOfMemory>
    requires catalog { IsWellFormed catalog.now }
    requires state { (m : PeiMachine) × StandsFor M.stands_for pei.now m }
    ensures { IfOk result (ExplainsBehind (choices_of (C.rules choice.now) catalog.now fuel)
        M.stands_for catalog.now fuel pei.now explained) }
{
    let actions = pei.actions();
    let end = match explained.end {
        PeiEnd::Handoff => {
            return explain_drivers(alloc, pei, explained, catalog, fuel, choice);
        }
        PeiEnd::NoMemory => RunEnd::NoMemory,
        PeiEnd::NoIpl => RunEnd::NoIpl,
        PeiEnd::Spent => RunEnd::Spent,
        PeiEnd::Deep => RunEnd::Deep,
    };
    Ok(Reached::End(alone(explained, actions, end)))
}

// The whole of a boot, over a core at its opening.
fn explain_opened<M: PeiStore + Drop, C: Choice<Nowhere>>(
    alloc: Global,
    pei: &mut Pei<M>,
    catalog: &Catalog,
    fuel: u32,
    choice: &C,
) -> Result<Reached<Explained>, OutOfMemory>
    requires catalog { IsWellFormed catalog.now }
    requires made { IsFor catalog.now fuel pei.old }
    requires opening { (board : Board) × StandsFor M.stands_for pei.old (pei_opening board catalog.now) }
    ensures { (board : Board) → StandsFor M.stands_for pei.old (pei_opening board catalog.now)
        → IfOk result (ExplainsTo (choices_of (C.rules choice.now) catalog.now fuel) board catalog.now fuel) }
{
    match explain_pei(alloc, pei, choice, catalog)? {
        Reached::End(explained) => explain_behind(alloc, pei, explained, catalog, fuel, choice),
        Reached::Barred(number) => Ok(Reached::Barred(number)),
    }
}

/// Explains the boot by a choice over a store that is as it was made: why each module started and what it needed, and why others never did; or tells before which start it is left, since the choice does not let the module. `fuel` is how many actions may be taken. Nothing is printed, so that the choice sees no text.
pub fn explain_by<M: PeiStore + Drop, C: Choice<Nowhere>>(
    alloc: Global,
    store: M,
    catalog: &Catalog,
    fuel: u32,
    choice: &C,
) -> Result<Reached<Explained>, OutOfMemory>
    requires catalog { IsWellFormed catalog.now }
    requires some { 1 ≤ length catalog.now.volumes }
    requires opening { (board : Board) × M.stands_for store (empty_store board) }
    ensures { (board : Board) → M.stands_for store (empty_store board)
        → IfOk result (ExplainsTo (choices_of (C.rules choice.now) catalog.now fuel) board catalog.now fuel) }
{
    let mut pei = Pei::begin(alloc, store, catalog, fuel)?;
    let reached = explain_opened(alloc, &mut pei, catalog, fuel, choice);
    drop(pei);
    reached
}
