// PEI from its opening to its end, explained.
ghost use Rattle.std.specs.Prelude.{◌≡◌, ◌<◌, IfOk};
ghost use Rattle.boot_model.specs.PeiMachine.{PeiMachine};
ghost use Rattle.mod_catalog.specs.WellFormed.{IsWellFormed};
ghost use Rattle.pei_core.specs.Standing.{StandsFor};
ghost use Rattle.boot_reasons.specs.PeiEnding.{BeginsTold, Ends, Explains, ExplainsEnd, IsOpened, StandsAtOpening};

use crate::copied::copied;
use crate::moves::heap_used;
use crate::nowhere::Nowhere;
use crate::pei_held::held_parts;
use crate::pei_turn::turn;
use crate::told::PeiTold;
use boot_laws::{Choice, Reached, cursor_aims, pei_opens, pei_starts_freely};
use boot_model::PeiEnd;
use depex_code::Steps;
use explain_text::{Begun, Held, Moved};
use mod_catalog::Catalog;
use pei_core::Pei;
use pei_dispatch::{PeiQueue, alike_views_are_shown, bound};
use pi_base::{OutOfMemory, Seq};
use std::alloc::Global;
use std::marker::Brand;
use std::sync::ledger::{Blank, Ledger};
use store_model::PeiStore;

/// What PEI comes to, explained.
#[derive(Drop)]
pub(crate) struct PeiExplained {
    pub(crate) end: PeiEnd,
    pub(crate) begun: Seq<Begun>,
    pub(crate) held: Seq<Held>,
    pub(crate) reported: Seq<u32>,
    pub(crate) moved: Option<Moved>,
    pub(crate) heap: u64,
}

// The queue of the opening: it knows the volumes that are reported there.
fn queue_of_opening<M: PeiStore + Drop>(
    alloc: Global,
    pei: &Pei<M>,
    catalog: &Catalog,
) -> Result<PeiQueue, OutOfMemory>
    requires catalog { IsWellFormed catalog.now }
    requires opening { StandsAtOpening M.stands_for catalog.now pei.now }
    ensures { IfOk result (IsOpened M.stands_for catalog.now pei.now) }
{
    alike_views_are_shown();
    let mut queue = PeiQueue::build(alloc, catalog)?;
    queue.report(catalog, pei.reported());
    Ok(queue)
}

// PEI by a choice to its end, or to a start that is not let, and what it tells.
fn run_to_end<M: PeiStore + Drop, C: Choice<Nowhere>, L: Ledger>(
    pei: &mut Pei<M>,
    queue: &mut PeiQueue,
    choice: &C,
    catalog: &Catalog,
    told: &mut PeiTold,
    steps: &mut Steps<L>,
) -> Result<Reached<PeiEnd>, OutOfMemory>
    requires catalog { IsWellFormed catalog.now }
    requires opening { BeginsTold (C.rules choice.now) M.stands_for catalog.now pei.old queue.old told.old }
    ensures row { IfOk result (Ends (C.rules choice.now) M.stands_for catalog.now
        pei.old queue.old told.old pei.new queue.new told.new) }
{
    cursor_aims();
    pei_opens();
    pei_starts_freely();
    'turns: for _ in 0..bound(catalog, pei.fuel()) {
        if let Some(reached) = turn(pei, queue, choice, catalog, told, steps)? {
            return Ok(reached);
        }
    }
    unreachable!()
}

// The end of PEI, explained.
fn explain_end<M: PeiStore + Drop>(
    alloc: Global,
    pei: &Pei<M>,
    queue: &PeiQueue,
    catalog: &Catalog,
    told: PeiTold,
    end: PeiEnd,
) -> Result<PeiExplained, OutOfMemory>
    requires state { (m : PeiMachine) × StandsFor M.stands_for pei.now m }
    ensures { IfOk result (ExplainsEnd M.stands_for catalog.now pei.now queue.now told end) }
{
    let Ok(held) = held_parts(alloc, pei, catalog, &told.givers, queue.as_slice()) else {
        drop(told);
        return Err(OutOfMemory);
    };
    let Ok(reported) = copied(alloc, pei.reported()) else {
        drop(held);
        drop(told);
        return Err(OutOfMemory);
    };
    Ok(PeiExplained {
        end,
        begun: told.begun,
        held,
        reported,
        moved: told.moved,
        heap: heap_used(pei.store()),
    })
}

// The whole of PEI from its opening, over the queue of the opening.
fn explain_opened<M: PeiStore + Drop, C: Choice<Nowhere>, L: Ledger>(
    alloc: Global,
    pei: &mut Pei<M>,
    queue: &mut PeiQueue,
    choice: &C,
    catalog: &Catalog,
    steps: &mut Steps<L>,
) -> Result<Reached<PeiExplained>, OutOfMemory>
    requires catalog { IsWellFormed catalog.now }
    requires opening { StandsAtOpening M.stands_for catalog.now pei.old }
    requires queue { IsOpened M.stands_for catalog.now pei.old queue.old }
    ensures row { IfOk result (Explains (C.rules choice.now) M.stands_for catalog.now pei.old pei.new) }
{
    pei_opens();
    let mut told = PeiTold::new(alloc);
    match run_to_end(pei, queue, choice, catalog, &mut told, steps) {
        Ok(Reached::End(end)) => match explain_end(alloc, pei, queue, catalog, told, end) {
            Ok(explained) => Ok(Reached::End(explained)),
            Err(OutOfMemory) => Err(OutOfMemory),
        },
        Ok(Reached::Barred(number)) => {
            drop(told);
            Ok(Reached::Barred(number))
        }
        Err(OutOfMemory) => {
            drop(told);
            Err(OutOfMemory)
        }
    }
}

// The same over a queue that is made for it. The expressions that are evaluated are counted in the ledger of a blank.
fn explain_with_ledger<M: PeiStore + Drop, C: Choice<Nowhere>, L: Ledger>(
    alloc: Global,
    pei: &mut Pei<M>,
    choice: &C,
    catalog: &Catalog,
    blank: Blank,
) -> Result<Reached<PeiExplained>, OutOfMemory>
    requires catalog { IsWellFormed catalog.now }
    requires opening { StandsAtOpening M.stands_for catalog.now pei.old }
    requires name { blank.name ≡ L.name }
    requires parts { blank.parts ≡ L.parts }
    requires counts { 0 < L.parts }
    ensures row { IfOk result (Explains (C.rules choice.now) M.stands_for catalog.now pei.old pei.new) }
{
    let mut queue = queue_of_opening(alloc, pei, catalog)?;
    let mut steps = Steps::<L>::new(blank);
    let reached = explain_opened(alloc, pei, &mut queue, choice, catalog, &mut steps);
    drop(queue);
    reached
}

/// The whole of PEI by a choice, from its opening to its end, or to the start of a PEIM that the choice does not let.
pub(crate) fn explain_pei<M: PeiStore + Drop, C: Choice<Nowhere>>(
    alloc: Global,
    pei: &mut Pei<M>,
    choice: &C,
    catalog: &Catalog,
) -> Result<Reached<PeiExplained>, OutOfMemory>
    requires catalog { IsWellFormed catalog.now }
    requires opening { StandsAtOpening M.stands_for catalog.now pei.old }
    ensures row { IfOk result (Explains (C.rules choice.now) M.stands_for catalog.now pei.old pei.new) }
{
    let blank = Blank::new(1);
    explain_with_ledger::<M, C, Brand>(alloc, pei, choice, catalog, blank)
}
