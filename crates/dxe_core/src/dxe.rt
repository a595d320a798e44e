//! The core.
ghost use Rattle.std.specs.Prelude.{◌≡◌, ◌↔◌, [], ℕ, IfOk, IsTrue, OnOk, is_some, option_map, true};
ghost use Rattle.boot_io.specs.{Halted.HaltsAfter, Sink.SinkFaultsAfter};
ghost use Rattle.pi_base.specs.declared.phase.Phase.TheVariants.{Dxe as InDxe};
ghost use Rattle.mod_catalog.specs.{Parts.part_at, WellFormed.IsWellFormed};
ghost use Rattle.store_model.specs.StoreState.{StoreState};
ghost use Rattle.boot_model.specs.{Discovery.discoveries, DxeMachine.DxeMachine, DxeRun.dxe_opening_of};
ghost use Rattle.phase_parts.specs.Frames.{top_of};
ghost use Rattle.dxe_core.specs.Standing.{IsCoreOf, IsFor, StandsFor};
ghost use Rattle.dxe_core.specs.Steps.{Starts, Steps};

use crate::database::Handles;
use crate::lines::start_line;
use crate::order::DriverOrder;
use crate::services::DxeServices;
use crate::stepped::Stepped;
use boot_io::{Halt, Sink, SinkFault};
use boot_model::{ProtocolSweep, Scheduled};
use boot_trace::put_start;
use mod_catalog::Catalog;
use phase_parts::{Frames, Fuel, begin_script};
use pi_base::{OutOfMemory, Phase};
use std::alloc::Global;
use std::marker::Model;
use store_model::PeiStore;

/// The DXE core. With its store it stands for a machine of DXE, apart from what is scheduled and has started.
pub struct Dxe {
    pub(crate) frames: Frames<ProtocolSweep>,
    pub(crate) fuel: Fuel,
    pub(crate) services: DxeServices,
}

// One drop function for the whole core keeps the proofs of the calls that own one small.
impl Drop for Dxe {
    fn drop(self) {
        let Dxe {
            frames: _,
            fuel: _,
            services: _,
        } = self;
    }
}

impl Model for Dxe {
    ghost use Rattle.std.specs.Prelude.{◌<◌, ◌^◌};
    ghost use Rattle.dxe_core.specs.Standing.{DxeCore};

    ghost Value = { DxeCore };

    ghost view = { λ s. record { frames = s.frames; fuel = s.fuel; services = s.services } };

    ghost invariant = { λ s. s.fuel.limit < 2 ^ 32 };
}

impl Dxe {
    /// The core at the opening: the volumes at these bases have just been discovered. `fuel` is how many actions may be taken, and `taken` how many of them PEI
    /// took.
    pub fn begin(
        alloc: Global,
        catalog: &Catalog,
        bases: &[u64],
        fuel: u32,
        taken: u32,
    ) -> Result<Dxe, OutOfMemory>
        requires catalog { IsWellFormed catalog.now }
        ensures opening { IfOk result (λ core. (s : StoreState)
            → IsCoreOf catalog.now core (dxe_opening_of catalog.now s taken (discoveries catalog.now [] bases.now))) }
        ensures made { IfOk result (IsFor catalog.now fuel) }
    {
        Ok(Dxe {
            frames: Frames::new(),
            fuel: Fuel { taken, limit: fuel },
            services: DxeServices::begin(alloc, catalog, bases)?,
        })
    }

    /// Does one step of the machine, and prints its lines.
    pub fn step<M: PeiStore, S: Sink>(
        &mut self,
        store: &M,
        catalog: &Catalog,
        sink: &mut S,
    ) -> Result<Stepped, Halt>
        requires catalog { IsWellFormed catalog.now }
        requires made { (fuel : ℕ) × IsFor catalog.now fuel self.old }
        requires state { (m : DxeMachine) × StandsFor M.stands_for store.now catalog.now self.old m }
        ensures row { Steps M.stands_for store.now catalog.now (record {
          before = self.old;
          later = self.new;
          old = S.text sink.old;
          new = S.text sink.new;
        }) result }
        ensures made { OnOk result ((fuel : ℕ) → IsFor catalog.now fuel self.old → IsFor catalog.now fuel self.new) }
        ensures faults { HaltsAfter result (S.faults sink.old) (S.faults sink.new) }
    {
        if self.frames.top().is_none() {
            return Ok(Stepped::Idle);
        }
        match self.next_notification() {
            Some(next) => self.notify(catalog, next, sink),
            None => self.act(store, catalog, sink),
        }
    }

    /// Starts a driver, by its licence, if no script runs.
    pub fn start<S: Sink>(
        &mut self,
        catalog: &Catalog,
        next: Scheduled,
        sink: &mut S,
    ) -> Result<(), SinkFault>
        requires idle { self.old.frames ≡ [] }
        requires part { is_some (part_at InDxe catalog.now next.module_number) ≡ true }
        ensures row { Starts catalog.now (record {
          before = self.old;
          later = self.new;
          old = S.text sink.old;
          new = S.text sink.new;
        }) next result }
        ensures made { (fuel : ℕ) → IsFor catalog.now fuel self.old → IsFor catalog.now fuel self.new }
        ensures faults { SinkFaultsAfter result (S.faults sink.old) (S.faults sink.new) }
    {
        let runs = begin_script(&mut self.frames, catalog, Phase::Dxe, next.module_number);
        put_start(sink, start_line(catalog, &next), runs)
    }

    /// The handles.
    pub fn handles(&self) -> &Handles
        ensures { result.now ≡ self.now.services.handles }
    {
        self.services.handles()
    }

    /// The handles, for what follows DXE.
    pub fn into_handles(self) -> Handles
        ensures { result ≡ self.services.handles }
    {
        let Dxe {
            frames: _,
            fuel: _,
            services,
        } = self;
        services.into_handles()
    }

    /// The discovered volumes and their drivers.
    pub fn order(&self) -> &DriverOrder
        ensures { result.now ≡ self.now.services.order }
    {
        self.services.order()
    }

    /// Which drivers were requested, by number.
    pub fn requested(&self) -> &[bool]
        ensures { result.now ≡ self.now.services.requested }
    {
        self.services.requested()
    }

    /// Whether no script runs: only a start or the end is left.
    pub fn is_idle(&self) -> bool
        ensures { IsTrue result ↔ (self.now.frames ≡ []) }
    {
        self.frames.top().is_none()
    }

    /// The module whose script runs. None if no script runs.
    pub fn running(&self) -> Option<u32>
        ensures { result ≡ option_map (λ frame. frame.module_number) (top_of self.now.frames) }
    {
        match self.frames.top() {
            Some(frame) => Some(frame.module_number),
            None => None,
        }
    }

    /// How many actions were taken, those of PEI included.
    pub fn actions(&self) -> u32
        ensures { result ≡ self.now.fuel.taken }
    {
        self.fuel.taken
    }

    /// How many actions may be taken in all.
    pub fn fuel(&self) -> u32
        ensures { result ≡ self.now.fuel.limit }
    {
        self.fuel.limit
    }
}
