// The move to permanent memory.
ghost use Rattle.boot_io.specs.Halted.{HaltsAfter};
ghost use Rattle.mod_catalog.specs.declared.catalogue.Catalog.{Catalog as OfCatalog};
ghost use Rattle.store_model.specs.{Service.Present, StoreCall.Anything, StoreCall.IsDue};
ghost use Rattle.pei_core.specs.Parts.{InstallsMemory, MovesMemory, StepsIn};
ghost use Rattle.pei_core.specs.Standing.{KeepsFor, last_start};

use crate::event::{Again, Event, Stepped};
use crate::guids::Changes;
use crate::pei::Pei;
use boot_io::{Halt, Sink};
use boot_model::Line;
use boot_trace::put_made;
use pi_base::{MEMORY_PPI, Word};
use store_model::PeiStore;

impl<M: PeiStore + Drop> Pei<M> {
    // The core installs the PPI of permanent memory, and its sweep is open.
    fn install_memory<S: Sink>(&mut self, sink: &mut S) -> Result<Event, Halt>
        requires state { Present (M.stands_for self.old.store) Anything }
        ensures row { InstallsMemory M.TAKES_MEMORY M.stands_for
            (record { pei = self.old; later = self.new; texts = record { old = S.text sink.old; new = S.text sink.new } }) result }
        ensures kept { (catalog : OfCatalog) → KeepsFor catalog self.old self.new (last_start self.old) }
        ensures faults { HaltsAfter result (S.faults sink.old) (S.faults sink.new) }
    {
        match self.store.core_install() {
            Ok(sweep) => {
                self.core.sweep = Some(sweep);
                put_made(
                    sink,
                    Line::CoreInstall {
                        status: Word::Success,
                    },
                )?;
                Ok(Event {
                    changes: Changes::installed(MEMORY_PPI),
                    again: Again::Nobody,
                    volumes: 0,
                })
            }
            Err(fault) => {
                let status = fault.status().ok_or(Halt::Memory)?;
                self.core.sweep = None;
                put_made(sink, Line::CoreInstall { status })?;
                Ok(Event::quiet())
            }
        }
    }

    // The store moves, and the core installs the PPI of permanent memory. The parts that await their second start may start again.
    pub(crate) fn move_memory<S: Sink>(&mut self, sink: &mut S) -> Result<Stepped, Halt>
        requires state { Present (M.stands_for self.old.store) IsDue }
        ensures row { (catalog : OfCatalog) → StepsIn MovesMemory M.TAKES_MEMORY M.stands_for catalog
            (record { pei = self.old; later = self.new; texts = record { old = S.text sink.old; new = S.text sink.new } }) result }
        ensures kept { (catalog : OfCatalog) → KeepsFor catalog self.old self.new (last_start self.old) }
        ensures faults { HaltsAfter result (S.faults sink.old) (S.faults sink.new) }
    {
        let (from, to) = self.store.migrate();
        put_made(sink, Line::Migrate { from, to })?;
        let installed = self.install_memory(sink)?;
        Ok(Stepped::Went(Event {
            changes: installed.changes,
            again: Again::All,
            volumes: 0,
        }))
    }
}
