// Which modules may install a GUID in a phase.
ghost use Rattle.std.specs.Prelude.{◌≡◌, ◌≤◌, ◌+◌, ◌∷◌, List, length, IfOk, OnOk};
ghost use Rattle.mod_catalog.specs.{declared.limits.TheConstants.MOST_MODULES, declared.catalogue.Module.Module as OfModule, Parts.part_of};
ghost use Rattle.explain_text.specs.Givers.{AddsName, AddsNames, AreGivers, is_first, link_at};

use crate::catalog::given_in;
use mod_catalog::{Module, Part};
use pi_base::{Guid, GuidMap, OutOfMemory, Phase, Seq};
use std::alloc::Global;

/// A module that may install a GUID, and the place of the next one.
#[derive(Clone, Copy)]
pub(crate) struct Link {
    pub(crate) number: u32,
    pub(crate) next: Option<usize>,
}

/// The modules that may install a GUID, by their numbers in order.
#[derive(Drop)]
pub(crate) struct Givers {
    /// Of each GUID, the place of its first module.
    pub(crate) first: GuidMap<usize>,
    pub(crate) links: Seq<Link>,
}

// The link at a place.
pub(crate) fn link_at(links: &[Link], place: Option<usize>) -> Option<Link>
    ensures { result ≡ link_at links.now place }
{
    match place {
        Some(place) => links.get(place).copied(),
        None => None,
    }
}

// Whether a module is the first of a list.
fn is_first(links: &[Link], first: Option<usize>, number: u32) -> bool
    ensures { result ≡ is_first links.now first number }
{
    match link_at(links, first) {
        Some(link) => link.number == number,
        None => false,
    }
}

// A module in front of those that may install a GUID, unless it is their first.
fn add_name(givers: &mut Givers, number: u32, guid: Guid) -> Result<(), OutOfMemory>
    ensures { OnOk result (AddsName number guid givers.old givers.new) }
{
    let next = givers.first.get(&guid);
    if is_first(givers.links.as_slice(), next, number) {
        return Ok(());
    }
    givers.first.insert(guid, givers.links.len())?;
    givers.links.push(Link { number, next })?;
    Ok(())
}

// A module in front of those that may install some GUIDs.
fn add_names(givers: &mut Givers, number: u32, guids: &[Guid]) -> Result<(), OutOfMemory>
    ensures { OnOk result (AddsNames number guids.now givers.old givers.new) }
{
    'guids: for guid in guids {
        add_name(givers, number, *guid)?;
    }
    Ok(())
}

// The part of a module for a phase.
pub(crate) fn part_of(phase: Phase, member: &Module) -> &Option<Part>
    ensures { result.now ≡ part_of phase member.now }
{
    match phase {
        Phase::Pei => &member.pei,
        Phase::Dxe => &member.dxe,
    }
}

// A module in front of those behind it.
fn add_module(
    alloc: Global,
    givers: &mut Givers,
    phase: Phase,
    number: u32,
    member: &Module,
) -> Result<(), OutOfMemory>
    ensures { OnOk result ((behind : List OfModule) → AreGivers phase (number + 1) behind givers.old
        → AreGivers phase number (member.now ∷ behind) givers.new) }
{
    let Some(part) = part_of(phase, member) else {
        return Ok(());
    };
    let guids = given_in(alloc, &part.script)?;
    add_names(givers, number, guids.as_slice())?;
    Ok(())
}

/// Those of all modules.
pub(crate) fn givers_of(
    alloc: Global,
    phase: Phase,
    modules: &[Module],
) -> Result<Givers, OutOfMemory>
    requires { length modules.now ≤ MOST_MODULES }
    ensures { IfOk result (AreGivers phase 0 modules.now) }
{
    let mut givers = Givers {
        first: GuidMap::new(alloc),
        links: Seq::new(alloc),
    };
    let mut number = modules.len();
    'modules: while number > 0 {
        number -= 1;
        add_module(alloc, &mut givers, phase, number as u32, &modules[number])?;
    }
    Ok(givers)
}
