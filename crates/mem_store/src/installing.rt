// Entries are put behind others in memory, by what the index tells.
ghost use Rattle.std.specs.Prelude.{◌≡◌, false};
ghost use Rattle.store_model.specs.Service.{And, Performs, Present};
ghost use Rattle.store_model.specs.{Service.Install.install, Service.Notify.notify, StoreCall.AreDescs, StoreCall.AreFew};
ghost use Rattle.heap_store.specs.HeapState as H;

use crate::pairs::are_callbacks;
use crate::store::MemStore;
use store_model::{Desc, StoreFault, Sweep};

impl MemStore {
    ghost use Rattle.mem_store.specs.MemState.{StandsFor};

    // Installs PPIs in memory. Where the index tells that none of them makes a pair, the dispatch notifications are not walked.
    pub(crate) fn install_behind(&mut self, list: &[Desc], by: u32) -> Result<Sweep, StoreFault>
        requires state { Present (StandsFor self.old) (AreDescs list.now) }
        requires few { AreFew list.now }
        ensures index { self.new.index ≡ self.old.index }
        ensures row { Performs false (And (StandsFor self.old) (AreDescs list.now)) (H.StandsFor self.new.behind)
            (λ s. install s list.now by) result }
    {
        if self.index.are_alone(&self.behind, list) {
            return self.behind.install_counted(list, by, 0);
        }
        self.behind.install_ppis(list, by)
    }

    // Registers notifications in memory. Where they are callbacks, which make no pair, the PPIs are not walked.
    pub(crate) fn register_behind(&mut self, list: &[Desc], by: u32) -> Result<Sweep, StoreFault>
        requires state { Present (StandsFor self.old) (AreDescs list.now) }
        requires few { AreFew list.now }
        ensures index { self.new.index ≡ self.old.index }
        ensures row { Performs false (And (StandsFor self.old) (AreDescs list.now)) (H.StandsFor self.new.behind)
            (λ s. notify s list.now by) result }
    {
        if are_callbacks(&self.behind, list) {
            return self.behind.register_counted(list, by, 0);
        }
        self.behind.register(list, by)
    }
}
