//! The discovered volumes and their drivers.
ghost use Rattle.std.specs.Prelude.{◌≡◌, ◌≤◌, ◌<◌, ◌++◌, [], ℕ, List, IfOk, OnOk, Some, length};
ghost use Rattle.mod_catalog.specs.{declared.catalogue.Catalog.Catalog, declared.limits.TheConstants.MOST_MODULES, Parts.has_number};
ghost use Rattle.mod_catalog.specs.WellFormed.{IsWellFormed};
ghost use Rattle.boot_model.specs.{Discovery.discoveries, DxeChoice.drivers_of, Reporting.newcomers};
ghost use Rattle.dxe_core.specs.Order.{IsOrderOf, OrderGrows, first_driver, befores_of, afters_of, asking_of};

use crate::names::Names;
use mod_catalog::Catalog;
use phase_parts::{Parts, VolumeList, volume_at};
use pi_base::{Guid, OutOfMemory, Phase};
use std::alloc::Global;
use std::marker::Model;

/// The discovered volumes and their drivers. A map finds drivers by name, whatever GUIDs the images choose.
#[derive(Drop)]
pub struct DriverOrder {
    volumes: VolumeList,
    drivers: Parts,
    names: Names,
}

impl Model for DriverOrder {
    ghost use Rattle.dxe_core.specs.Names.{order_by};
    ghost use Rattle.dxe_core.specs.Order.{Drivers};

    ghost Value = { Drivers };

    ghost view = { λ order. order_by order.volumes order.drivers order.names };
}

// Puts the drivers of these volumes at the end, volume by volume.
fn push_drivers(drivers: &mut Parts, catalog: &Catalog, volumes: &[u32])
    requires few { length catalog.now.modules ≤ MOST_MODULES }
    requires room { length (drivers.old ++ drivers_of catalog.now volumes.now) ≤ MOST_MODULES }
    ensures { drivers.new ≡ drivers.old ++ drivers_of catalog.now volumes.now }
{
    'volumes: for volume in volumes {
        drivers.push_all(catalog, Phase::Dxe, *volume);
    }
}

impl DriverOrder {
    // No volume is discovered. It takes no memory.
    fn empty(alloc: Global) -> DriverOrder
        ensures { (catalog : Catalog) → IsOrderOf catalog [] result }
    {
        DriverOrder {
            volumes: VolumeList::new(),
            drivers: Parts::new(),
            names: Names::new(alloc),
        }
    }

    /// Discovers the volumes at these bases, one base after the other, each volume followed by those nested in it.
    pub fn discover(
        alloc: Global,
        catalog: &Catalog,
        bases: &[u64],
    ) -> Result<DriverOrder, OutOfMemory>
        requires catalog { IsWellFormed catalog.now }
        ensures { IfOk result (IsOrderOf catalog.now (discoveries catalog.now [] bases.now)) }
    {
        let mut order = DriverOrder::empty(alloc);
        'bases: for base in bases {
            if let Some(volume) = volume_at(catalog, *base) {
                order.add(catalog, volume)?;
            }
        }
        Ok(order)
    }

    // Discovers one volume more, if it is new, and after it each volume nested in it that is, and says how many these are. Want of memory leaves the order unfinished.
    pub(crate) fn add_counted(
        &mut self,
        catalog: &Catalog,
        volume: u32,
    ) -> Result<usize, OutOfMemory>
        requires catalog { IsWellFormed catalog.now }
        requires order { (volumes : List ℕ) × IsOrderOf catalog.now volumes self.old }
        requires volume { volume < length catalog.now.volumes }
        ensures grows { OnOk result (OrderGrows catalog.now self.old volume self.new) }
        ensures count { IfOk result (λ count. (volumes : List ℕ) → IsOrderOf catalog.now volumes self.old
            → count ≡ length (newcomers catalog.now volumes (Some volume))) }
    {
        let known = self.volumes.as_slice().len();
        let ordered = self.drivers.as_slice().len();
        self.volumes.add(catalog, Some(volume));
        let new = &self.volumes.as_slice()[known..];
        let count = new.len();
        push_drivers(&mut self.drivers, catalog, new);
        self.names
            .push_all(catalog, &self.drivers.as_slice()[ordered..])?;
        Ok(count)
    }

    /// Discovers one more volume, if it is new, and after it each new volume nested in it. If memory runs out, the order is left unfinished.
    pub fn add(&mut self, catalog: &Catalog, volume: u32) -> Result<(), OutOfMemory>
        requires catalog { IsWellFormed catalog.now }
        requires order { (volumes : List ℕ) × IsOrderOf catalog.now volumes self.old }
        requires volume { volume < length catalog.now.volumes }
        ensures { OnOk result (OrderGrows catalog.now self.old volume self.new) }
    {
        self.add_counted(catalog, volume)?;
        Ok(())
    }

    /// The numbers of the volumes, in discovered order.
    pub fn volumes(&self) -> &[u32]
        ensures { result.now ≡ self.now.volumes }
    {
        self.volumes.as_slice()
    }

    /// The last `count` of the volumes.
    pub fn newest(&self, count: usize) -> &[u32]
        ensures { (before volumes : List ℕ) → self.now.volumes ≡ before ++ volumes → count ≡ length volumes
            → result.now ≡ volumes }
    {
        let volumes = self.volumes.as_slice();
        &volumes[volumes.len().saturating_sub(count)..]
    }

    /// Whether a volume was discovered.
    pub fn has_volume(&self, volume: u32) -> bool
        ensures { result ≡ has_number self.now.volumes volume }
    {
        self.volumes.has(volume)
    }

    /// The numbers of the drivers' modules, in discovered order.
    pub fn drivers(&self) -> &[u32]
        ensures { result.now ≡ self.now.drivers }
    {
        self.drivers.as_slice()
    }

    /// The first driver with a file name. None if no driver has it.
    pub fn named(&self, name: &Guid) -> Option<u32>
        ensures { result ≡ first_driver self.now name.now }
    {
        self.names.first.get(name)
    }

    /// The drivers whose BEFORE has this file name.
    pub fn befores(&self, name: &Guid) -> &[u32]
        ensures { result.now ≡ befores_of self.now name.now }
    {
        self.names.befores.of(name)
    }

    /// The drivers whose AFTER has this file name.
    pub fn afters(&self, name: &Guid) -> &[u32]
        ensures { result.now ≡ afters_of self.now name.now }
    {
        self.names.afters.of(name)
    }

    /// The drivers with a file name that wait for a request: they start on request alone, and are not in their volumes' a priori lists.
    pub fn asking(&self, name: &Guid) -> &[u32]
        ensures { result.now ≡ asking_of self.now name.now }
    {
        self.names.asking.of(name)
    }
}
