// Pools are made and written.
ghost use Rattle.store_model.specs.Service.{And, AfterEach, Performs, Present, Stores};
ghost use Rattle.std.specs.Prelude.{false};
ghost use Rattle.store_model.specs.{Service.Pool.pool, Service.Pool.store, StoreCall.Anything, StoreCall.HasPool};

use crate::store::HeapStore;
use store_laws::heap::bodies_changed;
use store_laws::{bodies_are_inside, services_keep_facts};
use store_model::{Pool, StoreFault};

impl HeapStore {
    ghost use Rattle.heap_store.specs.HeapState.{StandsFor};

    /// A pool of zeros.
    pub fn make_pool(&mut self, size: u32) -> Result<Pool, StoreFault>
        requires { Present (StandsFor self.old) Anything }
        ensures { Performs false (StandsFor self.old) (StandsFor self.new) (λ s. pool s size) result }
    {
        match self.heap.pool(&mut self.memory, size) {
            Some(pool) => Ok(pool),
            None => Err(StoreFault::Full),
        }
    }

    /// Writes bytes into a pool. False where they pass the size that was asked for.
    pub fn write_pool(&mut self, pool: Pool, at: u32, bytes: &[u8]) -> bool
        requires { Present (StandsFor self.old) (HasPool pool) }
        ensures { AfterEach (And (StandsFor self.old) (HasPool pool)) (StandsFor self.new)
            (λ s new. Stores (store s pool at bytes.now) s result new) }
    {
        bodies_are_inside();
        bodies_changed();
        services_keep_facts();
        if at as u64 + bytes.len() as u64 > pool.size as u64 {
            return false;
        }
        self.heap
            .put(&mut self.memory, pool.offset + at as u64, bytes);
        true
    }
}
