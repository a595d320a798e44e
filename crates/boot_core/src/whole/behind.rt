// What follows PEI in a boot, to the last line or to the start of a driver that the choice does not let.
ghost use Rattle.std.specs.Prelude.{◌≡◌, ◌<◌, ◌^◌, None, length};
ghost use Rattle.boot_io.specs.Halted.{HaltsAfter};
ghost use Rattle.boot_model.specs.declared.phase_end.PeiEnd.TheVariants.{Handoff};
ghost use Rattle.mod_catalog.specs.WellFormed.{IsWellFormed};
ghost use Rattle.store_model.specs.{HandleState.no_handles, Service.Present, Service.OfEach, StoreCall.Anything};
ghost use Rattle.boot_core.specs.{declared.whole.behind.Behind.TheVariants.Closed, Closing.closing_text, FirstBoot.Tells};
ghost use Rattle.boot_core.specs.Watched.{BootsBehind};

use crate::whole::closing::{put_closing, result_of};
use boot_io::{Halt, Sink};
use boot_laws::{Before, Choice};
use boot_model::{PeiEnd, RunEnd};
use dxe_core::database::Handles;
use dxe_dispatch::{Barred, DxeWatch, Left, watch_boot};
use mod_catalog::Catalog;
use pei_dispatch::Ended;
use std::alloc::Global;
use store_model::PeiStore;

/// What a boot leaves behind its last line, besides its store.
#[derive(Drop)]
pub(crate) struct Last {
    /// The result, which the last line tells.
    pub(crate) end: RunEnd,
    /// The handles, with their interfaces. There are none without a DXE.
    pub(crate) handles: Handles,
    /// What the choice would be told there: how many starts there were in both phases, and whose turn it is.
    pub(crate) before: Before,
}

/// What follows PEI comes to.
#[derive(Drop)]
pub(crate) enum Behind {
    /// The last line.
    Closed(Last),
    /// The start of a driver that the choice does not let.
    Barred(Barred),
}

// The last lines, over what the boot leaves.
fn close<M: PeiStore, S: Sink>(store: &M, last: Last, sink: &mut S) -> Result<Behind, Halt>
    requires state { Present (M.stands_for store.now) Anything }
    requires few { length last.handles.interfaces < 2 ^ 32 }
    ensures row { OfEach (M.stands_for store.now) Anything (λ s. Tells (λ behind. behind ≡ Closed last) (closing_text s last.handles last.end)
        (record { old = S.text sink.old; new = S.text sink.new }) result) }
    ensures faults { HaltsAfter result (S.faults sink.old) (S.faults sink.new) }
{
    put_closing(sink, store, &last.handles, last.end)?;
    Ok(Behind::Closed(last))
}

// DXE behind the hand-off.
fn boot_drivers<M: PeiStore + Drop, S: Sink, C: Choice<S>, D: DxeWatch>(
    alloc: Global,
    pei: &Ended<M>,
    catalog: &Catalog,
    fuel: u32,
    choice: &C,
    watch: &mut D,
    sink: &mut S,
) -> Result<Behind, Halt>
    requires catalog { IsWellFormed catalog.now }
    requires state { Present (M.stands_for pei.now.store) Anything }
    requires watch { D.is_new watch.old }
    ensures row { BootsBehind (D.knows_all watch.new) (record {
      by = record { rules = C.rules choice.now; text = S.text; faults = S.faults };
      stands = M.stands_for;
      takes = M.TAKES_MEMORY;
      catalog = catalog.now;
      fuel = fuel;
      sink = sink.old;
      shown = sink.new;
    }) pei.now Handoff result }
    ensures faults { HaltsAfter result (S.faults sink.old) (S.faults sink.new) }
{
    match watch_boot(
        alloc,
        &pei.store,
        catalog,
        fuel,
        pei.actions,
        pei.starts,
        choice,
        watch,
        sink,
    )? {
        Left::Ended(ended) => {
            let last = Last {
                end: result_of(ended.end),
                handles: ended.handles,
                before: ended.before,
            };
            close(&pei.store, last, sink)
        }
        Left::Barred(barred) => Ok(Behind::Barred(barred)),
    }
}

// The last lines of a boot that ended in PEI, where there are no handles.
fn close_pei<M: PeiStore + Drop, S: Sink>(
    alloc: Global,
    pei: &Ended<M>,
    end: RunEnd,
    sink: &mut S,
) -> Result<Behind, Halt>
    requires state { Present (M.stands_for pei.now.store) Anything }
    ensures row { OfEach (M.stands_for pei.now.store) Anything (λ s. Tells (λ behind. behind ≡ Closed (record {
      «end» = end;
      handles = no_handles;
      before = record { starts = pei.now.starts; turn = None };
    }))
        (closing_text s no_handles end) (record { old = S.text sink.old; new = S.text sink.new }) result) }
    ensures faults { HaltsAfter result (S.faults sink.old) (S.faults sink.new) }
{
    let last = Last {
        end,
        handles: Handles::new(alloc),
        before: Before {
            starts: u64::from(pei.starts),
            turn: None,
        },
    };
    close(&pei.store, last, sink)
}

/// What follows PEI.
pub(crate) fn boot_behind<M: PeiStore + Drop, S: Sink, C: Choice<S>, D: DxeWatch>(
    alloc: Global,
    pei: &Ended<M>,
    catalog: &Catalog,
    fuel: u32,
    choice: &C,
    watch: &mut D,
    sink: &mut S,
) -> Result<Behind, Halt>
    requires catalog { IsWellFormed catalog.now }
    requires state { Present (M.stands_for pei.now.store) Anything }
    requires watch { D.is_new watch.old }
    ensures row { BootsBehind (D.knows_all watch.new) (record {
      by = record { rules = C.rules choice.now; text = S.text; faults = S.faults };
      stands = M.stands_for;
      takes = M.TAKES_MEMORY;
      catalog = catalog.now;
      fuel = fuel;
      sink = sink.old;
      shown = sink.new;
    }) pei.now pei.now.end result }
    ensures faults { HaltsAfter result (S.faults sink.old) (S.faults sink.new) }
{
    match pei.end {
        PeiEnd::Handoff => boot_drivers(alloc, pei, catalog, fuel, choice, watch, sink),
        PeiEnd::NoMemory => close_pei(alloc, pei, RunEnd::NoMemory, sink),
        PeiEnd::NoIpl => close_pei(alloc, pei, RunEnd::NoIpl, sink),
        PeiEnd::Spent => close_pei(alloc, pei, RunEnd::Spent, sink),
        PeiEnd::Deep => close_pei(alloc, pei, RunEnd::Deep, sink),
    }
}
