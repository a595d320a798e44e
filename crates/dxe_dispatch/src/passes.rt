//! Whose turn it is in the order of EDK2's dispatcher, and what the dispatcher keeps.
ghost use Rattle.std.specs.Prelude.{◌≡◌, ◌≤◌, ◌<◌, ◌+◌, ◌-◌, ◌^◌, ◌++◌, [], ◌∷◌, IsTrue, ◌↔◌, drop, filter, flat_map, length, IfOk, OnOk};
ghost use Rattle.mod_catalog.specs.{declared.limits.TheConstants.MOST_MODULES, WellFormed.IsWellFormed};
ghost use Rattle.boot_model.specs.{DriverLicence.numbers_of, DxeChoice.a_priori_drivers, DxeMachine.DxeMachine};
ghost use Rattle.dxe_dispatch.specs.Passes.{has_type, in_types};
ghost use Rattle.dxe_dispatch.specs.PassList.{Follows, FollowsTurn, GetsVolumes, Leave, Refills, RefillsIdle, turn_kept};
ghost use Rattle.dxe_dispatch.specs.Queue.{IsNewQueue, IsQueueFor, IsQueueOf, IsSeen, owed};

use crate::DriverQueue;
use crate::answer::Turn;
use boot_laws::Before;
use depex_code::Steps;
use dxe_core::{DriverOrder, Dxe};
use mod_catalog::Catalog;
use phase_parts::Parts;
use pi_base::{OutOfMemory, Phase, Seq};
use std::alloc::Global;
use std::marker::Model;
use std::sync::ledger::Ledger;

/// `EFI_FV_FILETYPE_DRIVER`.
const DRIVER: u8 = 0x07;
/// `EFI_FV_FILETYPE_COMBINED_PEIM_DRIVER`.
const COMBINED_PEIM_DRIVER: u8 = 0x08;
/// `EFI_FV_FILETYPE_COMBINED_MM_DXE`.
const COMBINED_MM_DXE: u8 = 0x0C;

// Whether a module is a file of this type.
fn has_type(catalog: &Catalog, number: u32, kind: u8) -> bool
    ensures { result ≡ has_type catalog.now kind number }
{
    match catalog.modules.as_slice().get(number as usize) {
        Some(module) => module.kind == kind,
        None => false,
    }
}

// Adds those of these drivers that are files of this type at the end.
fn push_type(
    drivers: &mut Seq<u32>,
    catalog: &Catalog,
    numbers: &[u32],
    kind: u8,
) -> Result<(), OutOfMemory>
    ensures { OnOk result (drivers.new ≡ drivers.old ++ filter (has_type catalog.now kind) numbers.now) }
{
    'numbers: for number in numbers {
        if has_type(catalog, *number, kind) {
            drivers.push(*number)?;
        }
    }
    Ok(())
}

// Adds the drivers of a volume at the end, as EDK2 goes over them: type by type, each by place.
fn push_volume(drivers: &mut Seq<u32>, catalog: &Catalog, volume: u32) -> Result<(), OutOfMemory>
    requires { length catalog.now.modules ≤ MOST_MODULES }
    ensures { OnOk result (drivers.new ≡ drivers.old ++ in_types catalog.now volume) }
{
    let mut parts = Parts::new();
    parts.push_all(catalog, Phase::Dxe, volume);
    let numbers = parts.as_slice();
    push_type(drivers, catalog, numbers, DRIVER)?;
    push_type(drivers, catalog, numbers, COMBINED_MM_DXE)?;
    push_type(drivers, catalog, numbers, COMBINED_PEIM_DRIVER)
}

// The same of volumes, in list order.
fn push_volumes(
    drivers: &mut Seq<u32>,
    catalog: &Catalog,
    volumes: &[u32],
) -> Result<(), OutOfMemory>
    requires { length catalog.now.modules ≤ MOST_MODULES }
    ensures { OnOk result (drivers.new ≡ drivers.old ++ flat_map (in_types catalog.now) volumes.now) }
{
    'volumes: for volume in volumes {
        push_volume(drivers, catalog, *volume)?;
    }
    Ok(())
}

// Adds the a priori drivers of a volume at the end.
fn push_ranked(items: &mut Seq<u32>, catalog: &Catalog, volume: u32) -> Result<(), OutOfMemory>
    requires { length catalog.now.modules ≤ MOST_MODULES }
    ensures more { OnOk result (items.new ≡ items.old ++ numbers_of (a_priori_drivers catalog.now (volume ∷ []))) }
    ensures longer { length items.old ≤ length items.new }
{
    let mut parts = Parts::new();
    parts.push_ranked(catalog, Phase::Dxe, volume);
    items.append(parts.as_slice())
}

// The same of volumes, in list order.
fn push_a_priori(
    items: &mut Seq<u32>,
    catalog: &Catalog,
    volumes: &[u32],
) -> Result<(), OutOfMemory>
    requires { length catalog.now.modules ≤ MOST_MODULES }
    ensures more { OnOk result (items.new ≡ items.old ++ numbers_of (a_priori_drivers catalog.now volumes.now)) }
    ensures longer { length items.old ≤ length items.new }
{
    'volumes: for volume in volumes {
        push_ranked(items, catalog, *volume)?;
    }
    Ok(())
}

// The volumes from a place on.
fn volumes_from(volumes: &[u32], at: usize) -> &[u32]
    ensures { result.now ≡ drop at volumes.now }
{
    match volumes.get(at..) {
        Some(rest) => rest,
        None => &[],
    }
}

/// The queue that EDK2's dispatcher would have, if somebody wants to know whose turn it is. If not, nothing is kept.
#[derive(Drop)]
pub struct PassQueue {
    is_wanted: bool,
    // The drivers of the discovered volumes, volume by volume, as EDK2 goes over them.
    drivers: Seq<u32>,
    // A priori drivers, and those of the last pass.
    items: Seq<u32>,
    // How many of these have left the queue.
    head: usize,
}

impl Model for PassQueue {
    ghost use Rattle.std.specs.Prelude.{◌≤◌, drop, length};
    ghost use Rattle.dxe_dispatch.specs.PassList.{PassList};

    ghost Value = { PassList };

    ghost view = { λ s. record { wanted = s.is_wanted; drivers = s.drivers; left = drop s.head s.items } };

    ghost invariant = { λ s. s.head ≤ length s.items };
}

impl PassQueue {
    /// No volume is discovered. It takes no memory.
    pub fn new(alloc: Global, is_wanted: bool) -> PassQueue
        ensures { result ≡ record { wanted = is_wanted; drivers = []; left = [] } }
    {
        PassQueue {
            is_wanted,
            drivers: Seq::new(alloc),
            items: Seq::new(alloc),
            head: 0,
        }
    }

    /// These volumes were discovered: their a priori drivers are put at the end, in list order. Want of memory leaves it unfinished.
    pub fn discover(&mut self, catalog: &Catalog, volumes: &[u32]) -> Result<(), OutOfMemory>
        requires catalog { IsWellFormed catalog.now }
        ensures { OnOk result (GetsVolumes catalog.now volumes.now self.old self.new) }
    {
        if !self.is_wanted {
            return Ok(());
        }
        push_volumes(&mut self.drivers, catalog, volumes)?;
        push_a_priori(&mut self.items, catalog, volumes)
    }

    // Whether nothing is left.
    fn is_empty(&self) -> bool
        ensures { IsTrue result ↔ (self.now.left ≡ []) }
    {
        self.head == self.items.len()
    }

    /// The next pass, if nothing is left of the last one. No more expressions are evaluated than the queue owes. Want of memory leaves it as it was.
    pub fn refill<L: Ledger>(
        &mut self,
        order: &DriverOrder,
        queue: &mut DriverQueue,
        catalog: &Catalog,
        steps: &mut Steps<L>,
    ) -> Result<(), OutOfMemory>
        requires catalog { IsWellFormed catalog.now }
        requires made { IsQueueFor catalog.now queue.old }
        requires seen { (m : DxeMachine) × IsSeen catalog.now m queue.old order.now }
        ensures row { OnOk result (Refills catalog.now queue.old order.now self.old self.new) }
        ensures queue { (m : DxeMachine) → IsQueueOf catalog.now m queue.old → IsQueueOf catalog.now m queue.new }
        ensures made { IsQueueFor catalog.now queue.new }
        ensures owes { steps.new + owed queue.new ≤ steps.old + owed queue.old }
    {
        if self.is_wanted && self.is_empty() {
            self.items = queue.pass(catalog, order, self.drivers.as_slice(), steps)?;
            self.head = 0;
        }
        Ok(())
    }

    /// The driver whose turn it is. None if it is nobody's, or nobody wants to know.
    pub fn turn(&self) -> Option<u32>
        ensures { result ≡ turn_kept self.now }
    {
        if self.is_wanted {
            self.items.as_slice().get(self.head).copied()
        } else {
            None
        }
    }

    // So many drivers leave the queue.
    fn leave(&mut self, count: usize)
        ensures { Leave count self.old self.new }
    {
        self.head += count.min(self.items.len() - self.head);
    }

    // So many drivers have started, and these volumes were discovered.
    fn follow(
        &mut self,
        catalog: &Catalog,
        count: usize,
        volumes: &[u32],
    ) -> Result<(), OutOfMemory>
        requires catalog { IsWellFormed catalog.now }
        ensures { OnOk result (Follows catalog.now count volumes.now self.old self.new) }
    {
        self.leave(count);
        self.discover(catalog, volumes)
    }
}

/// What the dispatcher keeps: its queue, and the one that EDK2's would have.
#[derive(Drop)]
pub struct Agenda {
    /// The scheduled queue, and which drivers wait.
    pub queue: DriverQueue,
    /// Whose turn it is in EDK2's order.
    pub passes: PassQueue,
}

impl Agenda {
    /// No volume is discovered and nothing is scheduled, and all drivers of the catalogue wait.
    pub fn new(alloc: Global, catalog: &Catalog, wants_turn: bool) -> Result<Agenda, OutOfMemory>
        requires catalog { IsWellFormed catalog.now }
        ensures new { IfOk result (λ agenda. IsNewQueue catalog.now agenda.queue) }
        ensures made { IfOk result (λ agenda. IsQueueFor catalog.now agenda.queue) }
        ensures passes { IfOk result (λ agenda. agenda.passes ≡ record { wanted = wants_turn; drivers = []; left = [] }) }
    {
        let queue = DriverQueue::new(alloc, catalog)?;
        Ok(Agenda {
            queue,
            passes: PassQueue::new(alloc, wants_turn),
        })
    }

    /// What a choice is told. `in_pei` is how many starts there were in PEI.
    pub(crate) fn before(&self, in_pei: u32) -> Before
        requires few { self.now.queue.left < 2 ^ 32 }
        ensures { result ≡ record { starts = in_pei + self.now.queue.left; turn = turn_kept self.now.passes } }
    {
        Before {
            starts: u64::from(in_pei) + self.queue.left_count() as u64,
            turn: self.passes.turn(),
        }
    }

    /// If no script runs, EDK2's dispatcher goes on: it takes the next pass if nothing is left of the last one.
    pub(crate) fn refill<L: Ledger>(
        &mut self,
        dxe: &Dxe,
        catalog: &Catalog,
        steps: &mut Steps<L>,
    ) -> Result<(), OutOfMemory>
        requires catalog { IsWellFormed catalog.now }
        requires made { IsQueueFor catalog.now self.old.queue }
        requires seen { (m : DxeMachine) × IsSeen catalog.now m self.old.queue dxe.now.services.order }
        ensures row { OnOk result (RefillsIdle catalog.now dxe.now self.old.queue self.old.passes self.new.passes) }
        ensures queue { (m : DxeMachine) → IsQueueOf catalog.now m self.old.queue → IsQueueOf catalog.now m self.new.queue }
        ensures made { IsQueueFor catalog.now self.new.queue }
        ensures owes { steps.new + owed self.new.queue ≤ steps.old + owed self.old.queue }
    {
        if dxe.is_idle() {
            self.passes
                .refill(dxe.order(), &mut self.queue, catalog, steps)
        } else {
            Ok(())
        }
    }

    /// EDK2's queue follows a turn, before which `left` drivers had left the queue and `known` volumes were discovered.
    pub(crate) fn follow(
        &mut self,
        catalog: &Catalog,
        order: &DriverOrder,
        left: usize,
        known: usize,
        turn: &Turn,
    ) -> Result<(), OutOfMemory>
        requires catalog { IsWellFormed catalog.now }
        ensures row { OnOk result (FollowsTurn catalog.now (self.old.queue.left - left) (drop known order.now.volumes) turn.now self.old.passes self.new.passes) }
        ensures queue { self.new.queue ≡ self.old.queue }
    {
        match turn {
            Turn::Took(_) => {
                let count = self.queue.left_count().saturating_sub(left);
                self.passes
                    .follow(catalog, count, volumes_from(order.volumes(), known))
            }
            Turn::Reached(_) => Ok(()),
        }
    }
}
