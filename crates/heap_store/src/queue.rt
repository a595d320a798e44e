// The queue of dispatch notifications.
ghost use Rattle.store_model.specs.Service.{AfterEach, Present, Takes};
ghost use Rattle.store_model.specs.{Service.Queue.queue_pop, StoreCall.Anything};

use crate::store::HeapStore;
use pei_heap::links::pop;
use store_model::Firing;

impl HeapStore {
    ghost use Rattle.heap_store.specs.HeapState.{StandsFor};

    /// The first queued pair leaves the queue.
    pub fn pop_pending(&mut self) -> Option<Firing>
        requires { Present (StandsFor self.old) Anything }
        ensures { AfterEach (StandsFor self.old) (StandsFor self.new) (λ old new. Takes (queue_pop old) old result new) }
    {
        pop(&self.heap, &mut self.memory, &mut self.heads)
    }
}
