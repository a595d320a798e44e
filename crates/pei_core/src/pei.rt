//! The core over a store.
ghost use Rattle.std.specs.Prelude.{◌≡◌, ◌≤◌, ◌+◌, ◌-◌, ◌^◌, min, ℕ, Some, None, IfOk, IsTrue, length, is_some, option_map, true};
ghost use Rattle.boot_io.specs.{Halted.HaltsAfter, Sink.SinkFaultsAfter};
ghost use Rattle.mod_catalog.specs.{Parts.part_at, WellFormed.IsWellFormed, declared.catalogue.Catalog.Catalog as OfCatalog};
ghost use Rattle.pi_base.specs.declared.phase.Phase.TheVariants.{Pei as InPei};
ghost use Rattle.boot_model.specs.PeiMachine.{PeiMachine};
ghost use Rattle.boot_model.specs.PeimState.{ArePeimStates, awaits_start, peim_state};
ghost use Rattle.phase_parts.specs.Frames.{top_of};
ghost use Rattle.pei_core.specs.CoreCall.{last_volumes};
ghost use Rattle.pei_core.specs.Standing.{IsFor, KeepsFor, Opens, StandsFor, last_start};
ghost use Rattle.pei_core.specs.Steps.{IsIdle, StartsModule, Steps};

use crate::core_state::Core;
use crate::event::{Event, Stepped};
use crate::names::start_line;
use crate::reports::last_volumes;
use crate::states::none_started;
use boot_io::{Halt, Sink, SinkFault};
use boot_laws::{opening_is_sound, starts_keep_sound, steps_keep_sound};
use boot_model::{Licence, PeimState};
use boot_trace::put_start;
use mod_catalog::Catalog;
use phase_parts::{Frames, Fuel, VolumeList};
use pi_base::OutOfMemory;
use std::alloc::Global;
use store_model::PeiStore;

/// The PEI core over a store. Both together stand for a machine of PEI.
#[derive(Drop)]
pub struct Pei<M: PeiStore + Drop> {
    pub(crate) store: M,
    pub(crate) core: Core,
}

impl<M: PeiStore + Drop> Pei<M> {
    /// The core at the opening, over a new store: volume 0 and the volumes nested in it have just been reported. `fuel` is how many actions may be taken. All
    /// memory that the core needs is allocated here.
    pub fn begin(
        alloc: Global,
        store: M,
        catalog: &Catalog,
        fuel: u32,
    ) -> Result<Pei<M>, OutOfMemory>
        requires catalog { IsWellFormed catalog.now }
        requires some { 1 ≤ length catalog.now.volumes }
        ensures opening { IfOk result (Opens M.stands_for store catalog.now) }
        ensures made { IfOk result (IsFor catalog.now fuel) }
        ensures last { IfOk result (λ pei. last_start pei ≡ None) }
    {
        opening_is_sound();
        let mut reported = VolumeList::new();
        reported.add(catalog, Some(0));
        Ok(Pei {
            store,
            core: Core {
                frames: Frames::new(),
                sweep: None,
                reported,
                states: none_started(alloc, catalog.modules.len())?,
                fuel: Fuel {
                    taken: 0,
                    limit: fuel,
                },
                starts: 0,
                last_start: None,
            },
        })
    }

    /// Does one step of the machine, and prints its lines.
    pub fn step<S: Sink>(&mut self, catalog: &Catalog, sink: &mut S) -> Result<Stepped, Halt>
        requires catalog { IsWellFormed catalog.now }
        requires made { (fuel : ℕ) × IsFor catalog.now fuel self.old }
        requires state { (m : PeiMachine) × StandsFor M.stands_for self.old m }
        ensures row { Steps M.TAKES_MEMORY M.stands_for catalog.now
            (record { pei = self.old; later = self.new; texts = record { old = S.text sink.old; new = S.text sink.new } }) result }
        ensures kept { KeepsFor catalog.now self.old self.new (last_start self.old) }
        ensures faults { HaltsAfter result (S.faults sink.old) (S.faults sink.new) }
    {
        steps_keep_sound();
        self.step_by_case(catalog, sink)
    }

    /// Starts a module by a licence. The core must be idle, and the start of the module still to come.
    pub fn start<S: Sink>(
        &mut self,
        catalog: &Catalog,
        number: u32,
        licence: Licence,
        sink: &mut S,
    ) -> Result<(), SinkFault>
        requires catalog { IsWellFormed catalog.now }
        requires made { (fuel : ℕ) × IsFor catalog.now fuel self.old }
        requires state { (m : PeiMachine) × StandsFor M.stands_for self.old m × IsIdle m × IsTrue (awaits_start (peim_state m number)) }
        requires part { is_some (part_at InPei catalog.now number) ≡ true }
        ensures row { StartsModule M.stands_for catalog.now number licence
            (record { pei = self.old; later = self.new; texts = record { old = S.text sink.old; new = S.text sink.new } }) result }
        ensures kept { KeepsFor catalog.now self.old self.new (Some number) }
        ensures faults { SinkFaultsAfter result (S.faults sink.old) (S.faults sink.new) }
    {
        starts_keep_sound();
        let runs = self.core.start(catalog, number);
        put_start(sink, start_line(catalog, number, licence), runs)
    }

    /// The store.
    pub fn store(&self) -> &M
        ensures { (m : PeiMachine) → StandsFor M.stands_for self.now m → M.stands_for result.now m.store }
    {
        &self.store
    }

    /// The store, for what follows PEI.
    pub fn into_store(self) -> M
        ensures { (m : PeiMachine) → StandsFor M.stands_for self m → M.stands_for result m.store }
    {
        self.store
    }

    /// The volumes that were reported, by number, in order.
    pub fn reported(&self) -> &[u32]
        ensures { (m : PeiMachine) → StandsFor M.stands_for self.now m → result.now ≡ m.reported }
    {
        self.core.reported.as_slice()
    }

    /// The volumes that the last event reported. They are the last of all reported volumes.
    pub fn reported_by(&self, event: &Event) -> &[u32]
        requires { (m : PeiMachine) × StandsFor M.stands_for self.now m × event.now.volumes ≤ length m.reported }
        ensures { (m : PeiMachine) → StandsFor M.stands_for self.now m → result.now ≡ last_volumes event.now.volumes m.reported }
    {
        last_volumes(&self.core.reported, event.volumes)
    }

    /// The state of each module, by number.
    pub fn states(&self) -> &[PeimState]
        ensures { (m : PeiMachine) → StandsFor M.stands_for self.now m → ArePeimStates m result.now }
    {
        self.core.states.as_slice()
    }

    /// The module whose script runs. None if no script runs.
    pub fn running(&self) -> Option<u32>
        ensures { (m : PeiMachine) → StandsFor M.stands_for self.now m
            → result ≡ option_map (λ frame. frame.module_number) (top_of m.frames) }
    {
        match self.core.frames.top() {
            Some(frame) => Some(frame.module_number),
            None => None,
        }
    }

    /// How many actions were taken.
    pub fn actions(&self) -> u32
        ensures { (m : PeiMachine) → StandsFor M.stands_for self.now m → result ≡ m.actions }
    {
        self.core.fuel.taken
    }

    /// How many actions may be taken in all.
    pub fn fuel(&self) -> u32
        ensures { (catalog : OfCatalog) (fuel : ℕ) → IsFor catalog fuel self.now → result ≡ fuel }
    {
        self.core.fuel.limit
    }

    /// How many starts there were, second ones included. It stays at the greatest u32.
    pub fn starts(&self) -> u32
        ensures { (m : PeiMachine) → StandsFor M.stands_for self.now m → result ≡ min (length m.started + length m.again) (2 ^ 32 - 1) }
    {
        self.core.starts
    }

    /// The module that started last. None before the first start.
    pub fn last_start(&self) -> Option<u32>
        ensures { result ≡ last_start self.now }
    {
        self.core.last_start
    }
}
