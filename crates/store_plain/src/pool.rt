// Pools are made and written.
ghost use Rattle.std.specs.Prelude.{◌≡◌, IfOk, true, replicate};
ghost use Rattle.store_model.specs.{Service.Answers, Service.Stores, StateFacts.IsPool, Service.Pool.pool, Service.Pool.store};

use crate::length::{HEADER_LEN, round_up};
use crate::plain_hob::{PlainBody, PlainHob};
use crate::store::PlainStore;
use hob_codec::kind::POOL;
use pi_base::OutOfMemory;
use std::alloc::Global;
use store_model::{Pool, StoreFault};

// The most bytes that a pool may have.
const MOST_POOL: u32 = (hob_codec::MOST_LEN - hob_codec::HEADER_LEN) as u32;

// So many zeros.
pub(crate) fn zeros(alloc: Global, len: usize) -> Result<Vec<u8>, OutOfMemory>
    ensures { IfOk result (λ zeros. zeros.items ≡ replicate len 0) }
{
    vec![in alloc; 0u8; len].map_err(|_| OutOfMemory)
}

impl PlainStore {
    ghost use Rattle.store_plain.specs.PlainState.{state_of};

    // A pool of zeros.
    pub(crate) fn make_pool(&mut self, size: u32) -> Result<Pool, StoreFault>
        ensures { Answers true (pool (state_of self.old) size) (state_of self.old) result (state_of self.new) }
    {
        if size > MOST_POOL {
            return Err(StoreFault::Full);
        }
        let body = round_up(size);
        if self.free() < body + HEADER_LEN {
            return Err(StoreFault::Full);
        }
        let zeros = zeros(*self.hobs.allocator(), body as usize)?;
        let offset = self.end + HEADER_LEN;
        self.put_behind(PlainHob::new(POOL, PlainBody::Bytes(zeros)))?;
        Ok(Pool { offset, size })
    }

    // Writes bytes into a pool. Returns false if they pass the size that was asked for.
    pub(crate) fn write_pool(&mut self, pool: Pool, at: u32, bytes: &[u8]) -> bool
        requires { IsPool (state_of self.old) pool }
        ensures { Stores (store (state_of self.old) pool at bytes.now) (state_of self.old) result (state_of self.new) }
    {
        if at as u64 + bytes.len() as u64 > pool.size as u64 {
            return false;
        }
        match self.index_of(pool.offset) {
            Some(index) => {
                self.hobs[index].write(at as usize, bytes);
                true
            }
            None => unreachable!(),
        }
    }
}
