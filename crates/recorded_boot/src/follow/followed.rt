//! A boot along an order.
ghost use Rattle.std.specs.Prelude.{◌≤◌, ◌-◌, ◌^◌, None, IfOk, length};
ghost use Rattle.boot_io.specs.Halted.{HaltsAfter};
ghost use Rattle.mod_catalog.specs.WellFormed.{IsWellFormed};
ghost use Rattle.recorded_boot.specs.{Named.AreNames, Named.HasNoTwins, Answer.FollowsTo};
ghost use Rattle.recorded_boot.specs.Leaving.{ComesTo, LeavesBoot, store_of};
ghost use Rattle.store_model.specs.{HandleState.no_handles, Service.Present, Service.OfEach, StoreCall.Anything};
ghost use Rattle.store_model.specs.StoreState.{Board, empty_store};

use crate::follow::against::{Against, cause_against};
use crate::follow::by_order::{ByOrder, asked_behind};
use crate::follow::lacking::Installed;
use boot_core::whole::{Booted, boot_by_choice, nobody};
use boot_io::{Halt, Sink};
use boot_model::RunEnd;
use dxe_core::database::Handles;
use pei_dispatch::Barred;
use pi_base::OutOfMemory;
use std::alloc::Global;
use store_model::PeiStore;

/// How a boot along an order ends.
#[derive(Drop)]
pub enum Followed {
    /// Its end with this result, after all starts that the order asks for.
    Ended(RunEnd),
    /// The boot was left before the start that follows those of the order, since the order stops there.
    Stopped,
    /// A line of which the start is not made.
    No {
        /// The number of the line, from 1.
        line: u32,
        /// Why the start is not possible.
        against: Against,
    },
}

// How a boot ends after so many starts, with a result or before the next start.
fn come_to<M: PeiStore>(
    alloc: Global,
    by: &ByOrder<'_>,
    installed: &Installed<'_, M>,
    starts: u64,
    end: Option<RunEnd>,
) -> Result<Followed, OutOfMemory>
    requires names { AreNames by.now.catalog.now (length by.now.catalog.now.modules) by.now.names.now.volumes.items }
    requires state { Present (M.stands_for installed.now.store.now) Anything }
    ensures { OfEach (M.stands_for installed.now.store.now) Anything
        (λ s. IfOk result (ComesTo by.now.catalog.now by.now.order.now starts s installed.now.handles.now end)) }
{
    let asked = match asked_behind(by.order, starts) {
        Some(asked) => asked,
        None => match end {
            Some(end) => return Ok(Followed::Ended(end)),
            None => return Ok(Followed::Stopped),
        },
    };
    // The starts that the boot has made.
    let made = &by.order.starts.as_slice()[..starts as usize];
    let against = cause_against(alloc, by.catalog, by.names, installed, made, &asked.start)?;
    Ok(Followed::No {
        line: asked.line,
        against,
    })
}

// How a boot ends that is left in PEI, where there are no handles.
fn leave_pei<M: PeiStore + Drop>(
    alloc: Global,
    by: &ByOrder<'_>,
    barred: &Barred<M>,
) -> Result<Followed, OutOfMemory>
    requires names { AreNames by.now.catalog.now (length by.now.catalog.now.modules) by.now.names.now.volumes.items }
    requires state { Present (M.stands_for barred.now.store) Anything }
    ensures { OfEach (M.stands_for barred.now.store) Anything
        (λ s. IfOk result (ComesTo by.now.catalog.now by.now.order.now barred.now.starts s no_handles None)) }
{
    let none = Handles::new(alloc);
    let installed = Installed {
        store: &barred.store,
        handles: &none,
    };
    let followed = come_to(alloc, by, &installed, u64::from(barred.starts), None);
    drop(none);
    followed
}

// How a boot ends, by what it has come to.
fn leave<M: PeiStore + Drop>(
    alloc: Global,
    by: &ByOrder<'_>,
    booted: &Booted<M>,
) -> Result<Followed, OutOfMemory>
    requires names { AreNames by.now.catalog.now (length by.now.catalog.now.modules) by.now.names.now.volumes.items }
    requires state { Present (M.stands_for (store_of booted.now)) Anything }
    ensures { OfEach (M.stands_for (store_of booted.now)) Anything
        (λ s. IfOk result (LeavesBoot by.now.catalog.now by.now.order.now s booted.now)) }
{
    match booted {
        Booted::Ended(ran) => {
            let installed = Installed {
                store: &ran.pei.store,
                handles: &ran.handles,
            };
            come_to(alloc, by, &installed, ran.before.starts, Some(ran.end))
        }
        Booted::BarredInPei(barred) => leave_pei(alloc, by, barred),
        Booted::BarredInDxe { pei, barred } => {
            let installed = Installed {
                store: &pei.store,
                handles: &barred.handles,
            };
            come_to(alloc, by, &installed, barred.before.starts, None)
        }
    }
}

/// Boots a new store along an order: to its end, to the start at which the order stops, or to a line whose start is not possible.
pub(crate) fn follow_boot<M: PeiStore + Drop, S: Sink>(
    alloc: Global,
    by: &ByOrder<'_>,
    store: M,
    fuel: u32,
    sink: &mut S,
) -> Result<Followed, Halt>
    requires catalog { IsWellFormed by.now.catalog.now }
    requires some { 1 ≤ length by.now.catalog.now.volumes }
    requires apart { HasNoTwins by.now.catalog.now }
    requires names { AreNames by.now.catalog.now (length by.now.catalog.now.modules) by.now.names.now.volumes.items }
    requires order { length by.now.order.now.starts ≤ 2 ^ 32 - 1 }
    requires opening { (board : Board) × M.stands_for store (empty_store board) }
    ensures row { (board : Board) → M.stands_for store (empty_store board)
        → FollowsTo board by.now.catalog.now fuel by.now.order.now (record { old = S.text sink.old; new = S.text sink.new }) result }
    ensures faults { HaltsAfter result (S.faults sink.old) (S.faults sink.new) }
{
    let mut watch = nobody();
    let booted = boot_by_choice(alloc, store, by.catalog, fuel, by, &mut watch, sink)?;
    let followed = leave(alloc, by, &booted);
    drop(booted);
    Ok(followed?)
}
