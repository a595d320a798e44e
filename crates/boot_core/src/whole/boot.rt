//! A boot over a store that is as it was made, where a choice says which module starts.
ghost use Rattle.std.specs.Prelude.{◌≡◌, ◌≤◌, IfOk, length};
ghost use Rattle.boot_io.specs.Halted.{HaltsAfter};
ghost use Rattle.mod_catalog.specs.WellFormed.{IsWellFormed};
ghost use Rattle.store_model.specs.{Service.Present, StoreCall.Anything, StoreState.Board, StoreState.empty_store};
ghost use Rattle.boot_core.specs.{FreeWay.GoesFreely, Watched.BootsByChoice, Watched.GoesOn};

use crate::whole::behind::{Behind, boot_behind};
use crate::whole::free::choices_are_free;
use crate::whole::watch::Watch;
use boot_io::{Halt, Sink};
use boot_laws::{Before, Choice};
use boot_model::RunEnd;
use dxe_core::database::Handles;
use dxe_dispatch::DxeWatch;
use mod_catalog::Catalog;
use pei_dispatch::{Barred, Ended, Left, PeiWatch, watch_boot};
use std::alloc::Global;
use store_model::PeiStore;

/// What a boot leaves at its end.
#[derive(Drop)]
pub struct Ran<M: PeiStore + Drop> {
    /// Its result.
    pub end: RunEnd,
    /// The end of PEI, with the store, which DXE changes no more.
    pub pei: Ended<M>,
    /// The handles, with their interfaces. There are none without a DXE.
    pub handles: Handles,
    /// What the choice would be told there: how many starts there were in both phases, those in PEI counted up to the last u32, and whose turn it is.
    pub before: Before,
}

/// What a boot by a choice came to.
#[derive(Drop)]
pub enum Booted<M: PeiStore + Drop> {
    /// Its end, and its last line was put.
    Ended(Ran<M>),
    /// The start of a PEIM that the choice does not let.
    BarredInPei(Barred<M>),
    /// The start of a driver that it does not let.
    BarredInDxe {
        /// The end of PEI, with the store, which DXE changes no more.
        pei: Ended<M>,
        /// The driver, and the handles as they are there.
        barred: dxe_dispatch::Barred,
    },
}

// A boot behind its PEI.
fn go_on<M: PeiStore + Drop, S: Sink, C: Choice<S>, P: PeiWatch + Drop, D: DxeWatch + Drop>(
    alloc: Global,
    pei: Ended<M>,
    catalog: &Catalog,
    fuel: u32,
    choice: &C,
    watch: &mut Watch<P, D>,
    sink: &mut S,
) -> Result<Booted<M>, Halt>
    requires catalog { IsWellFormed catalog.now }
    requires state { Present (M.stands_for pei.store) Anything }
    requires watch { D.is_new watch.old.dxe }
    ensures kept { watch.new.pei ≡ watch.old.pei }
    ensures row { GoesOn (record { pei = P.knows_all watch.new.pei; dxe = D.knows_all watch.new.dxe }) (record {
      by = record { rules = C.rules choice.now; text = S.text; faults = S.faults };
      stands = M.stands_for;
      takes = M.TAKES_MEMORY;
      catalog = catalog.now;
      fuel = fuel;
      sink = sink.old;
      shown = sink.new;
    }) pei result }
    ensures faults { HaltsAfter result (S.faults sink.old) (S.faults sink.new) }
{
    let behind = boot_behind(alloc, &pei, catalog, fuel, choice, &mut watch.dxe, sink)?;
    match behind {
        Behind::Closed(last) => Ok(Booted::Ended(Ran {
            end: last.end,
            pei,
            handles: last.handles,
            before: last.before,
        })),
        Behind::Barred(barred) => Ok(Booted::BarredInDxe { pei, barred }),
    }
}

/// A boot from its first line to its last: PEI, DXE behind a hand-off, the lists, the handles and the result; where several modules may start, a choice says which. Before the start of a module that the choice does not let the boot is left. `fuel` is how many actions may be taken.
/// What it puts are the lines of a boot whose choices are these, which is a free one; and the watchers are told of that very boot. Over a store that takes no memory, memory is wanting before anything is put, or behind all lines of PEI.
pub fn boot_by_choice<
    M: PeiStore + Drop,
    S: Sink,
    C: Choice<S>,
    P: PeiWatch + Drop,
    D: DxeWatch + Drop,
>(
    alloc: Global,
    store: M,
    catalog: &Catalog,
    fuel: u32,
    choice: &C,
    watch: &mut Watch<P, D>,
    sink: &mut S,
) -> Result<Booted<M>, Halt>
    requires catalog { IsWellFormed catalog.now }
    requires some { 1 ≤ length catalog.now.volumes }
    requires opening { (board : Board) × M.stands_for store (empty_store board) }
    requires watches_pei { P.is_new watch.old.pei }
    requires watches_dxe { D.is_new watch.old.dxe }
    ensures row { BootsByChoice (record { pei = P.knows_all watch.new.pei; dxe = D.knows_all watch.new.dxe }) (record {
      by = record { rules = C.rules choice.now; text = S.text; faults = S.faults };
      stands = M.stands_for;
      takes = M.TAKES_MEMORY;
      catalog = catalog.now;
      fuel = fuel;
      sink = sink.old;
      shown = sink.new;
    }) store result }
    ensures free { (board : Board) → M.stands_for store (empty_store board)
        → IfOk result (GoesFreely board catalog.now fuel (record { old = S.text sink.old; new = S.text sink.new })) }
    ensures faults { HaltsAfter result (S.faults sink.old) (S.faults sink.new) }
{
    choices_are_free::<S, C>(choice);
    match watch_boot(alloc, store, catalog, fuel, choice, &mut watch.pei, sink)? {
        Left::Ended(ended) => go_on(alloc, ended, catalog, fuel, choice, watch, sink),
        Left::Barred(barred) => Ok(Booted::BarredInPei(barred)),
    }
}
