// What is kept of drivers by the names of files.
ghost use Rattle.std.specs.Prelude.{◌≡◌, ◌&&◌, ◌∷◌, [], OnOk, Some, is_none};
ghost use Rattle.boot_model.specs.DxeChoice as C;
ghost use Rattle.dxe_core.specs.Names.{AreDriverNames, IsFirstOfName, NamesGrow};
ghost use Rattle.dxe_core.specs.Order.{name_asked};
ghost use Rattle.mod_catalog.specs.declared.catalogue.Catalog.{Catalog};

use crate::lists::NumberLists;
use depex_code::Depex;
use mod_catalog::{Catalog, Part, PartExpr};
use phase_parts::{name_of, part_of};
use pi_base::{Guid, GuidMap, OutOfMemory, Phase};
use std::alloc::Global;

/// For each file name: its first driver, the drivers whose BEFORE or AFTER has it, and those of this name that wait for a request, each in discovered order.
#[derive(Drop)]
pub(crate) struct Names {
    pub(crate) first: GuidMap<u32>,
    pub(crate) befores: NumberLists,
    pub(crate) afters: NumberLists,
    pub(crate) asking: NumberLists,
}

// The names that a driver's expression has in BEFORE and in AFTER.
fn given_by(catalog: &Catalog, number: u32) -> (Option<Guid>, Option<Guid>)
    ensures before { result.0 ≡ C.name_by C.before_of catalog.now number }
    ensures after { result.1 ≡ C.name_by C.after_of catalog.now number }
{
    match part_of(catalog, Phase::Dxe, number) {
        Some(part) => match &part.expr {
            PartExpr::Held(Depex::Before(name)) => (Some(*name), None),
            PartExpr::Held(Depex::After(name)) => (None, Some(*name)),
            _ => (None, None),
        },
        None => (None, None),
    }
}

// Whether a driver starts on request alone: its expression begins with SOR (PI 1.8, volume 2, "Dependency Expressions"), and it is not in its volume's a priori
// list, which would schedule it without a request.
fn waits_for_request(part: &Part) -> bool
    ensures { result ≡ (is_none part.now.rank && C.asks_for_request (Some part.now)) }
{
    match &part.expr {
        PartExpr::Held(Depex::Expr { sor, .. }) => part.rank.is_none() && *sor,
        _ => false,
    }
}

// The file name of a driver that a request is waited for.
fn name_asked(catalog: &Catalog, number: u32) -> Option<Guid>
    ensures { result ≡ name_asked catalog.now number }
{
    match part_of(catalog, Phase::Dxe, number) {
        Some(part) => {
            if waits_for_request(part) {
                Some(name_of(catalog, number))
            } else {
                None
            }
        }
        None => None,
    }
}

// Sets the first number of a name, if it has none.
fn put_first(first: &mut GuidMap<u32>, name: Guid, number: u32) -> Result<(), OutOfMemory>
    ensures { OnOk result (IsFirstOfName first.old name number first.new) }
{
    if first.contains_key(&name) {
        Ok(())
    } else {
        first.insert(name, number)
    }
}

impl Names {
    /// Those of no driver. It takes no memory.
    pub(crate) fn new(alloc: Global) -> Names
        ensures { (catalog : Catalog) → AreDriverNames catalog [] result }
    {
        Names {
            first: GuidMap::new(alloc),
            befores: NumberLists::new(alloc),
            afters: NumberLists::new(alloc),
            asking: NumberLists::new(alloc),
        }
    }

    // One driver more.
    fn push(&mut self, catalog: &Catalog, number: u32) -> Result<(), OutOfMemory>
        ensures { OnOk result (NamesGrow catalog.now self.old (number ∷ []) self.new) }
    {
        let (before, after) = given_by(catalog, number);
        put_first(&mut self.first, name_of(catalog, number), number)?;
        self.befores.push_under(before, number)?;
        self.afters.push_under(after, number)?;
        self.asking.push_under(name_asked(catalog, number), number)
    }

    /// These drivers more, one after the other.
    pub(crate) fn push_all(&mut self, catalog: &Catalog, numbers: &[u32]) -> Result<(), OutOfMemory>
        ensures { OnOk result (NamesGrow catalog.now self.old numbers.now self.new) }
    {
        'drivers: for number in numbers {
            self.push(catalog, *number)?;
        }
        Ok(())
    }
}
