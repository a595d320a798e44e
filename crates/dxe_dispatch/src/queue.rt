//! The scheduled queue, the drivers that wait, and the next driver.
ghost use Rattle.std.specs.Prelude.{◌≡◌, ◌≤◌, ◌<◌, ◌+◌, ◌↔◌, IsTrue, [], ◌∷◌, ◌++◌, drop, IfOk, OnOk, IfSome, length, map, reverse};
ghost use Rattle.pi_base.specs.Lists.{Each};
ghost use Rattle.mod_catalog.specs.{WellFormed.IsWellFormed, declared.catalogue.Catalog.Catalog as OfCatalog};
ghost use Rattle.boot_model.specs.DxeChoice.{a_priori_drivers, companion_group, drivers_of, schedule_of};
ghost use Rattle.boot_model.specs.DxeChoice as C;
ghost use Rattle.boot_model.specs.{DxeMachine.DxeMachine, Licence.AllDiffer};
ghost use Rattle.dxe_dispatch.specs.{Aim.aimed, Aim.may_be_next, Passes.group_of, Passes.pass_of};
ghost use Rattle.dxe_dispatch.specs.Choosing.{AllWait, Come, IsFilledQueue, HasFlagFor, IsSeenRoot, Schedules, TakesHead, as_apriori};
ghost use Rattle.dxe_dispatch.specs.Queue.{AreNew, Changes, ComesNext, Discovers, IsDriver, IsNewQueue, IsQueueFor, IsQueueOf, IsSeen, OwesFor, Requests, owed, waits_at};
ghost use Rattle.wait_index.specs.Index.{order_in};

use crate::group::backward_group;
use crate::index::{admit, first_that_may_start, leave, may_start};
use crate::licence::licence_of;
use crate::waits::waits_at;
use boot_model::{Licence, Scheduled};
use depex_code::Steps;
use dxe_core::DriverOrder;
use mod_catalog::Catalog;
use phase_parts::Parts;
use pi_base::{Guid, OutOfMemory, Phase, Seq};
use std::alloc::Global;
use std::marker::Model;
use std::sync::ledger::Ledger;
use wait_index::{WaitIndex, asked_are_those_of_the_bound_in_dxe};

/// The scheduled queue, and which drivers wait.
pub struct DriverQueue {
    // All that were ever scheduled.
    items: Seq<Scheduled>,
    // How many of them have left the queue.
    head: usize,
    // By the numbers of modules.
    waits: Seq<bool>,
    // The drivers of the discovered volumes, with what they wait for.
    index: WaitIndex,
}

// What it is made of is dropped by one proof, which all that own one call.
impl Drop for DriverQueue {
    fn drop(self) {
        let DriverQueue {
            items: _,
            head: _,
            waits: _,
            index: _,
        } = self;
    }
}

impl Model for DriverQueue {
    ghost use Rattle.std.specs.Prelude.{◌≤◌, drop, length};
    ghost use Rattle.dxe_dispatch.specs.Queue.{Queue};

    ghost Value = { Queue };

    ghost view = { λ s. record { scheduled = drop s.head s.items; left = s.head; waits = s.waits; index = s.index } };

    ghost invariant = { λ s. s.head ≤ length s.items };
}

// A flag for each module, all of them up.
fn all_wait(alloc: Global, catalog: &Catalog) -> Result<Seq<bool>, OutOfMemory>
    ensures waits { IfOk result AllWait }
    ensures flags { IfOk result (λ flags. length flags ≡ length catalog.now.modules) }
{
    let mut waits = Seq::new(alloc);
    'modules: for _ in catalog.modules.as_slice() {
        waits.push(true)?;
    }
    Ok(waits)
}

// Adds a group, which is given last driver first.
fn add_group(pass: &mut Seq<u32>, mut group: Seq<u32>) -> Result<(), OutOfMemory>
    ensures { OnOk result (pass.new ≡ pass.old ++ reverse group) }
{
    'group: while let Some(number) = group.pop() {
        pass.push(number)?;
    }
    Ok(())
}

impl DriverQueue {
    /// No volume is discovered and nothing is scheduled, and all drivers of the catalogue wait.
    pub fn new(alloc: Global, catalog: &Catalog) -> Result<DriverQueue, OutOfMemory>
        requires catalog { IsWellFormed catalog.now }
        ensures new { IfOk result (IsNewQueue catalog.now) }
        ensures made { IfOk result (IsQueueFor catalog.now) }
    {
        let waits = all_wait(alloc, catalog)?;
        let index = WaitIndex::build(alloc, catalog, Phase::Dxe)?;
        Ok(DriverQueue {
            items: Seq::new(alloc),
            head: 0,
            waits,
            index,
        })
    }

    // Schedules one driver, which waits no more.
    fn schedule(&mut self, number: u32, licence: Licence) -> Result<(), OutOfMemory>
        requires number { number < length self.old.waits }
        ensures { OnOk result (Schedules self.old (record { module_number = number; licence = licence } ∷ []) self.new) }
    {
        self.items.push(Scheduled {
            module_number: number,
            licence,
        })?;
        self.waits.set(number as usize, false);
        leave(&mut self.index, number);
        Ok(())
    }

    // Schedules drivers by their places in an a priori list.
    fn schedule_ranked(&mut self, numbers: &[u32]) -> Result<(), OutOfMemory>
        requires numbers { Each (HasFlagFor self.old) numbers.now }
        ensures { OnOk result (Schedules self.old (map as_apriori numbers.now) self.new) }
    {
        'numbers: for number in numbers {
            self.schedule(*number, Licence::Apriori)?;
        }
        Ok(())
    }

    // Schedules the a priori drivers of a volume.
    fn schedule_volume(&mut self, catalog: &Catalog, volume: u32) -> Result<(), OutOfMemory>
        requires catalog { IsWellFormed catalog.now }
        requires flags { length self.old.waits ≡ length catalog.now.modules }
        ensures { OnOk result (Schedules self.old (a_priori_drivers catalog.now (volume ∷ [])) self.new) }
    {
        let mut parts = Parts::new();
        parts.push_ranked(catalog, Phase::Dxe, volume);
        self.schedule_ranked(parts.as_slice())
    }

    // Schedules the a priori drivers of volumes, in list order.
    fn schedule_a_priori(&mut self, catalog: &Catalog, volumes: &[u32]) -> Result<(), OutOfMemory>
        requires catalog { IsWellFormed catalog.now }
        requires flags { length self.old.waits ≡ length catalog.now.modules }
        ensures { OnOk result (Schedules self.old (a_priori_drivers catalog.now volumes.now) self.new) }
    {
        'volumes: for volume in volumes {
            self.schedule_volume(catalog, *volume)?;
        }
        Ok(())
    }

    // The drivers of these volumes wait in the index.
    fn come(&mut self, catalog: &Catalog, drivers: &[u32])
        requires catalog { IsWellFormed catalog.now }
        requires made { IsQueueFor catalog.now self.old }
        requires known { Each (λ number. number < length catalog.now.modules) drivers.now }
        requires differ { AllDiffer (order_in self.old.index ++ drivers.now) }
        ensures come { Come catalog.now drivers.now self.old self.new }
        ensures made { IsQueueFor catalog.now self.new }
    {
        self.index.discover(catalog, drivers);
    }

    /// These volumes, the last of the discovered ones, have just been discovered: their drivers wait, and their a priori drivers are scheduled, in list order, behind those that are. Want of memory leaves the queue unfinished.
    pub fn discover(
        &mut self,
        catalog: &Catalog,
        order: &DriverOrder,
        volumes: &[u32],
    ) -> Result<(), OutOfMemory>
        requires catalog { IsWellFormed catalog.now }
        requires made { IsQueueFor catalog.now self.old }
        requires new { AreNew catalog.now self.old order.now volumes.now }
        ensures row { OnOk result (Discovers catalog.now self.old volumes.now self.new) }
        ensures made { OnOk result (IsQueueFor catalog.now self.new) }
        ensures owes { OnOk result (owed self.new ≤ owed self.old + length (drivers_of catalog.now volumes.now)) }
    {
        let (_, drivers) = order.drivers().split_at(self.index.order().len());
        self.come(catalog, drivers);
        self.schedule_a_priori(catalog, volumes)
    }

    /// A driver of a discovered volume is requested: one with SOR starts from now on as its expression lets it.
    pub fn request(&mut self, number: u32)
        ensures row { (catalog : OfCatalog) → IsQueueFor catalog self.old → Requests catalog self.old number self.new }
        ensures made { (catalog : OfCatalog) → IsQueueFor catalog self.old → IsQueueFor catalog self.new }
        ensures owes { owed self.new ≡ owed self.old }
    {
        admit(&mut self.index, number);
    }

    /// A protocol is on a handle now, or on none.
    pub fn change(&mut self, guid: &Guid, there: bool)
        ensures row { (catalog : OfCatalog) → IsQueueFor catalog self.old → Changes catalog self.old guid.now there self.new }
        ensures made { (catalog : OfCatalog) → IsQueueFor catalog self.old → IsQueueFor catalog self.new }
        ensures owes { (catalog : OfCatalog) → IsQueueFor catalog self.old → OwesFor catalog self.old guid.now self.new }
    {
        asked_are_those_of_the_bound_in_dxe();
        self.index.changed(guid, there);
    }

    // Schedules a group, which is given last driver first, by the expressions of its drivers.
    fn schedule_group(&mut self, catalog: &Catalog, mut group: Seq<u32>) -> Result<(), OutOfMemory>
        requires numbers { Each (HasFlagFor self.old) group }
        ensures { OnOk result (Schedules self.old (schedule_of catalog.now (reverse group)) self.new) }
    {
        'group: while let Some(number) = group.pop() {
            self.schedule(number, licence_of(catalog, number))?;
        }
        Ok(())
    }

    /// Whether no driver is scheduled.
    pub fn is_empty(&self) -> bool
        ensures { IsTrue result ↔ (self.now.scheduled ≡ []) }
    {
        self.head == self.items.len()
    }

    /// How many drivers have left the queue.
    pub fn left_count(&self) -> usize
        ensures { result ≡ self.now.left }
    {
        self.head
    }

    /// Whether a driver is neither scheduled nor started.
    pub fn is_waiting(&self, number: u32) -> bool
        ensures { result ≡ waits_at self.now.waits number }
    {
        waits_at(self.waits.as_slice(), number)
    }

    // Schedules the group of an eligible driver that waits.
    fn schedule_group_of(
        &mut self,
        catalog: &Catalog,
        order: &DriverOrder,
        root: u32,
    ) -> Result<(), OutOfMemory>
        requires catalog { IsWellFormed catalog.now }
        requires made { IsQueueFor catalog.now self.old }
        requires root { (m : DxeMachine) × IsSeenRoot catalog.now m self.old order.now root }
        ensures row { OnOk result ((m : DxeMachine) → IsSeenRoot catalog.now m self.old order.now root
            → Schedules self.old (schedule_of catalog.now (companion_group catalog.now m root)) self.new) }
        ensures made { OnOk result (IsQueueFor catalog.now self.new) }
        ensures owes { OnOk result (owed self.new ≤ owed self.old) }
    {
        let group = backward_group(
            self.items.alloc(),
            catalog,
            order,
            self.waits.as_slice(),
            root,
        )?;
        self.schedule_group(catalog, group)
    }

    // Schedules the group of the first eligible driver, if there is one, where nothing is scheduled.
    fn fill<L: Ledger>(
        &mut self,
        catalog: &Catalog,
        order: &DriverOrder,
        steps: &mut Steps<L>,
    ) -> Result<(), OutOfMemory>
        requires catalog { IsWellFormed catalog.now }
        requires made { IsQueueFor catalog.now self.old }
        requires seen { (m : DxeMachine) × IsSeen catalog.now m self.old order.now }
        ensures filled { OnOk result ((m : DxeMachine) → IsSeen catalog.now m self.old order.now → IsFilledQueue catalog.now m self.new) }
        ensures made { OnOk result (IsQueueFor catalog.now self.new) }
        ensures few_steps { steps.new ≤ steps.old + owed self.old }
        ensures owes { OnOk result (steps.new + owed self.new ≤ steps.old + owed self.old) }
    {
        if !self.is_empty() {
            return Ok(());
        }
        match self.first_eligible(catalog, steps) {
            Some(root) => self.schedule_group_of(catalog, order, root),
            None => Ok(()),
        }
    }

    // The first eligible driver. What the queue owes is evaluated before.
    fn first_eligible<L: Ledger>(&mut self, catalog: &Catalog, steps: &mut Steps<L>) -> Option<u32>
        requires catalog { IsWellFormed catalog.now }
        requires made { IsQueueFor catalog.now self.old }
        ensures first { (m : DxeMachine) → IsQueueOf catalog.now m self.old → C.first_eligible catalog.now m ≡ result }
        ensures queue { (m : DxeMachine) → IsQueueOf catalog.now m self.old → IsQueueOf catalog.now m self.new }
        ensures made { IsQueueFor catalog.now self.new }
        ensures same { self.new.scheduled ≡ self.old.scheduled }
        ensures left { self.new.left ≡ self.old.left }
        ensures owes { steps.new + owed self.new ≤ steps.old + owed self.old }
    {
        first_that_may_start(&mut self.index, catalog, steps)
    }

    // Whether a driver waits and may start. What the queue owes is evaluated before.
    fn may_be_next<L: Ledger>(
        &mut self,
        catalog: &Catalog,
        number: u32,
        steps: &mut Steps<L>,
    ) -> bool
        requires catalog { IsWellFormed catalog.now }
        requires made { IsQueueFor catalog.now self.old }
        ensures may { (m : DxeMachine) → IsQueueOf catalog.now m self.old → may_be_next catalog.now m number ≡ result }
        ensures queue { (m : DxeMachine) → IsQueueOf catalog.now m self.old → IsQueueOf catalog.now m self.new }
        ensures made { IsQueueFor catalog.now self.new }
        ensures same { self.new.scheduled ≡ self.old.scheduled }
        ensures left { self.new.left ≡ self.old.left }
        ensures owes { steps.new + owed self.new ≤ steps.old + owed self.old }
    {
        may_start(&mut self.index, catalog, number, steps)
    }

    /// Aims the next choice at a driver: where nothing is scheduled, and the driver waits and may start, its group is scheduled, as if it were the first that may. Else nothing is. No more expressions are evaluated than the queue owes. Want of memory leaves the queue unfinished.
    pub fn aim<L: Ledger>(
        &mut self,
        catalog: &Catalog,
        order: &DriverOrder,
        root: u32,
        steps: &mut Steps<L>,
    ) -> Result<(), OutOfMemory>
        requires catalog { IsWellFormed catalog.now }
        requires made { IsQueueFor catalog.now self.old }
        requires seen { (m : DxeMachine) × IsSeen catalog.now m self.old order.now }
        ensures row { OnOk result ((m : DxeMachine) → IsSeen catalog.now m self.old order.now
            → IsQueueOf catalog.now (aimed catalog.now m root) self.new) }
        ensures made { OnOk result (IsQueueFor catalog.now self.new) }
        ensures few_steps { steps.new ≤ steps.old + owed self.old }
        ensures owes { OnOk result (steps.new + owed self.new ≤ steps.old + owed self.old) }
    {
        if !self.is_empty() {
            return Ok(());
        }
        if self.may_be_next(catalog, root, steps) {
            self.schedule_group_of(catalog, order, root)
        } else {
            Ok(())
        }
    }

    // Adds the group of a driver, where it waits and may start.
    fn add_to_pass<L: Ledger>(
        &mut self,
        catalog: &Catalog,
        order: &DriverOrder,
        number: u32,
        pass: &mut Seq<u32>,
        steps: &mut Steps<L>,
    ) -> Result<(), OutOfMemory>
        requires catalog { IsWellFormed catalog.now }
        requires made { IsQueueFor catalog.now self.old }
        requires seen { (m : DxeMachine) × IsSeen catalog.now m self.old order.now }
        ensures row { OnOk result ((m : DxeMachine) → IsSeen catalog.now m self.old order.now → pass.new ≡ pass.old ++ group_of catalog.now m number) }
        ensures queue { (m : DxeMachine) → IsQueueOf catalog.now m self.old → IsQueueOf catalog.now m self.new }
        ensures made { IsQueueFor catalog.now self.new }
        ensures owes { steps.new + owed self.new ≤ steps.old + owed self.old }
    {
        if self.may_be_next(catalog, number, steps) {
            let group = backward_group(
                self.items.alloc(),
                catalog,
                order,
                self.waits.as_slice(),
                number,
            )?;
            add_group(pass, group)
        } else {
            Ok(())
        }
    }

    /// A pass: those of these drivers that wait and may start, each with its group. No more expressions are evaluated than the queue owes.
    pub fn pass<L: Ledger>(
        &mut self,
        catalog: &Catalog,
        order: &DriverOrder,
        drivers: &[u32],
        steps: &mut Steps<L>,
    ) -> Result<Seq<u32>, OutOfMemory>
        requires catalog { IsWellFormed catalog.now }
        requires made { IsQueueFor catalog.now self.old }
        requires seen { (m : DxeMachine) × IsSeen catalog.now m self.old order.now }
        ensures row { IfOk result (λ pass. (m : DxeMachine) → IsSeen catalog.now m self.old order.now → pass ≡ pass_of catalog.now m drivers.now) }
        ensures queue { (m : DxeMachine) → IsQueueOf catalog.now m self.old → IsQueueOf catalog.now m self.new }
        ensures made { IsQueueFor catalog.now self.new }
        ensures owes { steps.new + owed self.new ≤ steps.old + owed self.old }
    {
        let mut pass = Seq::new(self.items.alloc());
        'drivers: for number in drivers {
            self.add_to_pass(catalog, order, *number, &mut pass, steps)?;
        }
        Ok(pass)
    }

    // The head leaves the queue, if there is one.
    fn take(&mut self) -> Option<Scheduled>
        ensures { TakesHead self.old result self.new }
    {
        let next = *self.items.as_slice().get(self.head)?;
        self.head += 1;
        Some(next)
    }

    /// The next driver, which leaves the queue: its head, or where it is empty the first of the group of the first eligible driver in discovered order, which is then scheduled. None where there is none. No more expressions are evaluated than the queue owes. Want of memory leaves the queue unfinished.
    pub fn next<L: Ledger>(
        &mut self,
        catalog: &Catalog,
        order: &DriverOrder,
        steps: &mut Steps<L>,
    ) -> Result<Option<Scheduled>, OutOfMemory>
        requires catalog { IsWellFormed catalog.now }
        requires made { IsQueueFor catalog.now self.old }
        requires seen { (m : DxeMachine) × IsSeen catalog.now m self.old order.now }
        ensures row { (m : DxeMachine) → IsSeen catalog.now m self.old order.now
            → IfOk result (λ next. ComesNext catalog.now m next self.new) }
        ensures driver { IfOk result (λ next. IfSome next (IsDriver catalog.now)) }
        ensures made { OnOk result (IsQueueFor catalog.now self.new) }
        ensures few_steps { steps.new ≤ steps.old + owed self.old }
        ensures owes { OnOk result (steps.new + owed self.new ≤ steps.old + owed self.old) }
    {
        self.fill(catalog, order, steps)?;
        Ok(self.take())
    }
}
