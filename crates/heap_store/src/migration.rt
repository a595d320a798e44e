// The move to permanent memory.
ghost use Rattle.store_model.specs.Service.{AfterEach, And, Present};
ghost use Rattle.store_model.specs.StoreCall.{IsDue, Migrates};

use crate::relocation::migrate;
use crate::store::HeapStore;

impl HeapStore {
    ghost use Rattle.heap_store.specs.HeapState.{StandsFor};

    /// Moves to permanent memory, and answers the old base and the new.
    pub fn move_to_memory(&mut self) -> (u64, u64)
        requires { Present (StandsFor self.old) IsDue }
        ensures { AfterEach (And (StandsFor self.old) IsDue) (StandsFor self.new) (λ old new. Migrates old result new) }
    {
        let to = match self.planned {
            Some(to) => to,
            None => unreachable!(),
        };
        let base = self.heap.span.base;
        migrate(
            &mut self.memory,
            &mut self.heap,
            &mut self.heads,
            self.pages,
            self.early,
            to,
        );
        self.moved = true;
        (base, to.base)
    }
}
