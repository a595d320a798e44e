// What fires at two entries that the index tells, and the first PPI that names a descriptor.
ghost use Rattle.std.specs.Prelude.{◌≡◌};
ghost use Rattle.store_model.specs.{Service.OfEach, Service.Present, StoreState.StoreState, StoreCall.Anything};
ghost use Rattle.pei_heap.specs.Replaced.{IsFound};
ghost use Rattle.mem_store.specs.Meeting.{AreMet, IsFiring};

use crate::store::MemStore;
use pei_heap::links::PpiFound;
use store_laws::named_are_there;
use store_model::{Desc, Firing};

impl MemStore {
    ghost use Rattle.mem_store.specs.MemState.{StandsFor};

    // What fires at the PPI and the callback in these places.
    pub(crate) fn firing_at(&self, ppi: u32, note: u32) -> Firing
        requires { Present (StandsFor self.now) (AreMet self.now.index ppi note) }
        ensures { OfEach (StandsFor self.now) (AreMet self.now.index ppi note) (λ s. IsFiring s ppi note result) }
    {
        named_are_there();
        let ppi = match self.index.ppis.get(ppi as usize) {
            Some(row) => row,
            None => unreachable!(),
        };
        let note = match self.index.callbacks.get(note as usize) {
            Some(row) => row,
            None => unreachable!(),
        };
        let entry = self.behind.tell_descriptor(Desc { offset: note.at }).1 as u32;
        let d = Desc { offset: ppi.at };
        let value = self.behind.tell_descriptor(d).1;
        Firing {
            entry,
            ppi: d,
            guid: ppi.guid,
            value,
        }
    }

    // The first PPI that names a descriptor: by the index where it knows the nodes of all, otherwise by walking the list in memory.
    pub(crate) fn first_named(&mut self, d: Desc) -> Option<PpiFound>
        requires { Present (StandsFor self.old) Anything }
        ensures stands { (s : StoreState) → StandsFor self.old s → StandsFor self.new s }
        ensures found { (s : StoreState) → StandsFor self.old s → IsFound s d result }
        ensures same { self.new.behind ≡ self.old.behind }
    {
        self.index.learn(&self.behind);
        if self.index.knows_ppis() {
            return self.index.named.first(d);
        }
        self.behind.walk_to(d)
    }
}
