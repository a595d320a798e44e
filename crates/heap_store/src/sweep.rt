// The pairs that a sweep has still to visit.
ghost use Rattle.store_model.specs.{Service.OfEach, Service.Present, StoreCall.IsAmong, StoreCall.IsMatch};
ghost use Rattle.store_model.specs.Service.Sweep as W;

use crate::store::HeapStore;
use pei_heap::links::next_match;
use store_model::{Firing, Sweep};

impl HeapStore {
    ghost use Rattle.heap_store.specs.HeapState.{StandsFor};

    /// The first pair that fires now, the sweep then standing behind it.
    pub fn next_firing(&self, sweep: &mut Sweep) -> Option<Firing>
        requires { Present (StandsFor self.now) (IsAmong sweep.old) }
        ensures { OfEach (StandsFor self.now) (IsAmong sweep.old) (λ s. IsMatch (W.next_match s sweep.old) result sweep.new) }
    {
        next_match(&self.heap, &self.memory, &self.heads, sweep)
    }
}
