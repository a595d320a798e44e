//! The table of names.
ghost use Rattle.std.specs.Prelude.{◌≡◌, ◌<◌, ◌+◌, ◌↔◌, ℕ, IfOk, Some, None, length};
ghost use Rattle.mod_catalog.specs.{WellFormed.IsWellFormed, declared.catalogue.Catalog.Catalog as OfCatalog};
ghost use Rattle.recorded_boot.specs.Named.{AreNames, HasNoTwins, IsFirstWithTwins, IsNamed, number_in};
ghost use Rattle.recorded_boot.specs.Taking.{Fails, Keeps, NoneIsKept};

use mod_catalog::{Catalog, Module};
use pi_base::{Guid, GuidMap, OutOfMemory};
use std::alloc::Global;

/// The modules of a catalogue, by volume and file name, if no volume has two modules of one name.
#[derive(Drop)]
pub struct Names {
    // A map for each volume, by its number.
    volumes: Vec<GuidMap<u32>>,
}

/// Why there are no names.
#[derive(Clone, Copy, Debug, PartialEq, Eq)]
pub enum NamesFault {
    /// Two modules of a volume have one file name. It is the first such volume.
    Twins {
        /// Its number in the catalogue.
        volume: u32,
    },
    /// Memory ran out.
    Memory,
}

impl From<OutOfMemory> for NamesFault {
    ghost use Rattle.std.specs.Prelude.{◌≡◌};
    ghost use Rattle.recorded_boot.specs.declared.order.names.NamesFault.TheVariants.{Memory};

    ghost from_gives = { λ _ fault. fault ≡ Memory };

    fn from(_want: OutOfMemory) -> NamesFault {
        NamesFault::Memory
    }
}

// An empty map for each of so many volumes.
fn none_kept(alloc: Global, count: usize) -> Result<Vec<GuidMap<u32>>, OutOfMemory>
    ensures { IfOk result (λ maps. NoneIsKept count maps.items) }
{
    let mut maps = Vec::new(alloc);
    'volumes: for _ in 0..count {
        if maps.push(GuidMap::new(alloc)).is_err() {
            return Err(OutOfMemory);
        }
    }
    Ok(maps)
}

// The name of one more module is kept, unless its volume has it already.
fn keep(maps: &mut Vec<GuidMap<u32>>, member: &Module, number: u32) -> Result<(), NamesFault>
    requires { member.now.volume < length maps.old.items }
    ensures { Keeps member.now.volume member.now.name number maps.old.items maps.new.items result }
{
    let map = &mut maps[member.volume as usize];
    if map.contains_key(&member.name) {
        return Err(NamesFault::Twins {
            volume: member.volume,
        });
    }
    map.insert(member.name, number)?;
    Ok(())
}

// The names of all modules are kept in empty maps, up to the first volume of which two modules have one name.
fn keep_all(maps: &mut Vec<GuidMap<u32>>, catalog: &Catalog) -> Result<(), NamesFault>
    requires catalog { IsWellFormed catalog.now }
    requires none { NoneIsKept (length catalog.now.volumes) maps.old.items }
    ensures names { IfOk result (λ _. AreNames catalog.now (length catalog.now.modules) maps.new.items) }
    ensures apart { IfOk result (λ _. HasNoTwins catalog.now) }
    ensures twins { Fails (IsFirstWithTwins catalog.now) result }
{
    let mut number = 0u32;
    'modules: for member in catalog.modules.as_slice() {
        keep(maps, member, number)?;
        number += 1;
    }
    Ok(())
}

// What is kept for a volume and a name.
fn kept(maps: &[GuidMap<u32>], volume: u32, name: &Guid) -> Option<u32>
    ensures { result ≡ number_in maps.now volume name.now }
{
    match maps.get(volume as usize) {
        Some(map) => map.get(name),
        None => None,
    }
}

impl Names {
    /// Collects the names of all modules, or returns the first volume with two modules of one name.
    pub fn build(alloc: Global, catalog: &Catalog) -> Result<Names, NamesFault>
        requires { IsWellFormed catalog.now }
        ensures names { IfOk result (λ names. AreNames catalog.now (length catalog.now.modules) names.volumes.items) }
        ensures apart { IfOk result (λ _. HasNoTwins catalog.now) }
        ensures twins { Fails (IsFirstWithTwins catalog.now) result }
    {
        let Ok(mut volumes) = none_kept(alloc, catalog.volumes.len()) else {
            return Err(NamesFault::Memory);
        };
        match keep_all(&mut volumes, catalog) {
            Ok(()) => Ok(Names { volumes }),
            Err(fault) => {
                drop(volumes);
                Err(fault)
            }
        }
    }

    /// The module with this file name in this volume. None if there is no such module.
    pub fn number_of(&self, volume: u32, name: &Guid) -> Option<u32>
        ensures { (catalog : OfCatalog) → AreNames catalog (length catalog.modules) self.now.volumes.items
            → (number : ℕ) → (result ≡ Some number) ↔ IsNamed catalog volume name.now number }
    {
        kept(self.volumes.as_slice(), volume, name)
    }
}
