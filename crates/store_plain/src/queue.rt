// The queue of dispatch notifications.
ghost use Rattle.std.specs.Prelude.{◌≡◌};
ghost use Rattle.store_model.specs.{StoreState.handoff_len, StoreState.with_body, StateFacts.IsStoreState, StateFacts.IsNodeAt};
ghost use Rattle.store_model.specs.{Service.Takes, Service.Queue.queue_pop, Service.Queue.zeroed};

use crate::store::PlainStore;
use store_model::Firing;

impl PlainStore {
    ghost use Rattle.store_plain.specs.PlainState.{state_of};

    // The node at a place becomes zeros.
    fn zero_node(&mut self, place: u64)
        requires { IsNodeAt (state_of self.old) place }
        ensures { state_of self.new ≡ record (state_of self.old) { hobs = with_body zeroed handoff_len self.old.hobs.items place } }
    {
        match self.index_of(place) {
            Some(index) => self.hobs[index].zero(),
            None => unreachable!(),
        }
    }

    // The first queued pair leaves the queue.
    #[tactic(auto, using(store_laws::proofs::Named::pending_is_named, store_laws::proofs::Named::pending_is_entry))]
    pub(crate) fn pop_pending(&mut self) -> Option<Firing>
        requires { IsStoreState (state_of self.old) }
        ensures { Takes (queue_pop (state_of self.old)) (state_of self.old) result (state_of self.new) }
    {
        let first = match self.pending_in(0) {
            Some(first) => first,
            None => return None,
        };
        let firing = self.firing(first.ppi, first.descriptor);
        self.zero_node(first.node);
        self.pendings.remove(0);
        Some(firing)
    }
}
