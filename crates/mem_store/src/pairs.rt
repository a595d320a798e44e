// Calls that queue no pair. PI 1.8, volume 1, `InstallPpi()` and `NotifyPpi()`.
ghost use Rattle.std.specs.Prelude.{◌≡◌, [], true};
ghost use Rattle.store_model.specs.{Service.OfEach, Service.Present, Service.Install.install_pairs, Service.Notify.notify_pairs};
ghost use Rattle.store_model.specs.StoreCall.{AreDescs};
ghost use Rattle.heap_store.specs.HeapState as H;
ghost use Rattle.mem_store.specs.Indexed.{Says};

use crate::index::{Index, row_of};
use crate::rows_answer;
use heap_store::HeapStore;
use store_model::Desc;

impl Index {
    // Whether the index tells that no dispatch notification has the GUID of one of these PPIs.
    pub(crate) fn are_alone(&self, behind: &HeapStore, list: &[Desc]) -> bool
        requires { Present (H.StandsFor behind.now) (AreDescs list.now) }
        ensures { OfEach (H.StandsFor behind.now) (AreDescs list.now)
            (λ s. Says self.now s → result ≡ true → install_pairs s list.now ≡ []) }
    {
        rows_answer();
        if !self.right {
            return false;
        }
        'descs: for d in list {
            let row = row_of(behind, *d);
            if self.dispatches.contains(&row.guid) {
                return false;
            }
        }
        true
    }
}

// Whether all of these notifications are callbacks.
pub(crate) fn are_callbacks(behind: &HeapStore, list: &[Desc]) -> bool
    requires { Present (H.StandsFor behind.now) (AreDescs list.now) }
    ensures { OfEach (H.StandsFor behind.now) (AreDescs list.now) (λ s. result ≡ true → notify_pairs s list.now ≡ []) }
{
    'descs: for d in list {
        if !behind.is_callback(*d) {
            return false;
        }
    }
    true
}
