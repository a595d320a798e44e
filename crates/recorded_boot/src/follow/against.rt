//! Why a start that an order asks for is not possible.
ghost use Rattle.std.specs.Prelude.{◌≡◌, IfOk, length, option_copied};
ghost use Rattle.store_model.specs.{Service.Present, Service.OfEach, StoreCall.Anything};
ghost use Rattle.recorded_boot.specs.{Named.AreNames, Against.StandsAgainst, ByOrder.starts_of};
ghost use Rattle.recorded_boot.specs.Finding.{FindsPart, is_among_asked, same_start};

use crate::follow::lacking::{Installed, lacking};
use crate::order::{AskedStart, Names, Start};
use mod_catalog::{Catalog, Part};
use phase_parts::part_of;
use pi_base::{Guid, OutOfMemory, Seq};
use std::alloc::Global;
use store_model::PeiStore;

/// Why a start that an order asks for is not possible.
#[derive(Drop)]
pub enum Against {
    /// No module of this volume and file name has a part of the phase.
    Unknown,
    /// It has started, and may not again.
    Started,
    /// It has not started, and may not: these are the GUIDs that its dependency expression pushes and that are not installed, once each, in the order in which it first mentions them.
    NotEligible(Seq<Guid>),
}

// The part of the module of a start, if there is one.
fn part_asked<'c>(catalog: &'c Catalog, names: &Names, start: &Start) -> Option<&'c Part>
    requires { AreNames catalog.now (length catalog.now.modules) names.now.volumes.items }
    ensures { FindsPart catalog.now start.now (option_copied result) }
{
    match names.number_of(start.volume, &start.name) {
        Some(number) => part_of(catalog, start.phase, number),
        None => None,
    }
}

// Whether two starts are the same.
fn same_start(one: &Start, other: &Start) -> bool
    ensures { result ≡ same_start one.now other.now }
{
    one.phase == other.phase && one.volume == other.volume && one.name == other.name
}

// Whether a start is that of one of these lines.
fn is_among(start: &Start, made: &[AskedStart]) -> bool
    ensures { result ≡ is_among_asked start.now made.now }
{
    let mut rest = made;
    'made: while let [asked, after @ ..] = rest {
        if same_start(start, &asked.start) {
            return true;
        }
        rest = after;
    }
    false
}

/// Why a start after those of these lines is not possible.
pub(crate) fn cause_against<M: PeiStore>(
    alloc: Global,
    catalog: &Catalog,
    names: &Names,
    installed: &Installed<'_, M>,
    made: &[AskedStart],
    start: &Start,
) -> Result<Against, OutOfMemory>
    requires names { AreNames catalog.now (length catalog.now.modules) names.now.volumes.items }
    requires state { Present (M.stands_for installed.now.store.now) Anything }
    ensures { OfEach (M.stands_for installed.now.store.now) Anything
        (λ s. IfOk result (StandsAgainst catalog.now (starts_of made.now) s installed.now.handles.now start.now)) }
{
    match part_asked(catalog, names, start) {
        None => Ok(Against::Unknown),
        Some(_) if is_among(start, made) => Ok(Against::Started),
        Some(part) => Ok(Against::NotEligible(lacking(alloc, installed, start.phase, &part.expr)?)),
    }
}
