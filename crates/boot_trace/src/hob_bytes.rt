//! The HOB list of a store, byte by byte.
ghost use Rattle.std.specs.Prelude.{◌≡◌, IfOk, replicate};
ghost use Rattle.store_model.specs.{HeapImage.hob_list, Service.Present, Service.OfEach, StoreCall.Anything};

use crate::store_hobs::count_hobs;
use pi_base::{OutOfMemory, Seq};
use std::alloc::Global;
use store_model::PeiStore;

// The length of the end HOB, which is a header alone.
const END_LEN: usize = hob_codec::HEADER_LEN;

// So many zeros.
fn zeros(alloc: Global, len: usize) -> Result<Vec<u8>, OutOfMemory>
    ensures { IfOk result (λ bytes. bytes.items ≡ replicate len 0) }
{
    match vec![in alloc; 0u8; len] {
        Ok(bytes) => Ok(bytes),
        Err(_) => Err(OutOfMemory),
    }
}

/// The bytes of a store's HOB list, from the hand-off HOB to the end HOB (PI 1.8, volume 3, "HOB List").
pub fn hob_list<M: PeiStore>(alloc: Global, store: &M) -> Result<Seq<u8>, OutOfMemory>
    requires state { Present (M.stands_for store.now) Anything }
    ensures row { OfEach (M.stands_for store.now) Anything (λ s. IfOk result (λ bytes. bytes ≡ hob_list s)) }
{
    let len = count_hobs(store).end as usize + END_LEN;
    let mut bytes = zeros(alloc, len)?;
    // The heap is mapped, so it is always read.
    let _ = store.peek(store.base(), bytes.as_mut_slice());
    Ok(Seq::from_vec(bytes))
}
