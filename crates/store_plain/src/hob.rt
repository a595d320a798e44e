// HOBs are made.
ghost use Rattle.std.specs.Prelude.{◌≡◌, ◌≤◌, ◌+◌, true, IfOk, OnOk, length};
ghost use Rattle.hob_codec.specs.HobView.{hob_value};
ghost use Rattle.hob_codec.specs.HobValue as V;
ghost use Rattle.hob_codec.specs.HobBytes.{length_of, fields_of, joined};
ghost use Rattle.store_model.specs.{StoreCall.IsScriptHob, Service.Answers, Service.Hob.create_hob};

use crate::length::HEADER_LEN;
use crate::plain_hob::{PlainBody, PlainHob};
use crate::pool::zeros;
use crate::store::PlainStore;
use hob_codec::kind::{CPU, NAMED, RESOURCE, VOLUME, VOLUME2};
use hob_codec::{Hob, encode_into, hob_len};
use pi_base::OutOfMemory;
use std::alloc::Global;
use store_model::StoreFault;

// The type of a HOB that a script makes.
fn kind_of(hob: &Hob<'_>) -> u16
    requires { IsScriptHob (hob_value hob.now) }
    ensures { result ≡ V.kind_of (hob_value hob.now) }
{
    match hob {
        Hob::Resource { .. } => RESOURCE,
        Hob::Named { .. } => NAMED,
        Hob::Volume { .. } => VOLUME,
        Hob::Cpu { .. } => CPU,
        Hob::Volume2 { .. } => VOLUME2,
        Hob::Handoff(_) => unreachable!(),
        Hob::Allocation { .. } => unreachable!(),
        Hob::Pool { .. } => unreachable!(),
        Hob::Other { .. } => unreachable!(),
    }
}

// Its length, with the header.
fn length_of(hob: &Hob<'_>) -> u16
    requires { IsScriptHob (hob_value hob.now) }
    ensures len { result ≡ length_of (hob_value hob.now) }
    ensures most { result ≤ 65528 }
{
    match hob_len(hob) {
        Some(len) => len,
        None => unreachable!(),
    }
}

// The bytes of its fields.
#[tactic(auto, using(crate::proofs::Encoded::behind_header))]
fn body_of(alloc: Global, hob: &Hob<'_>) -> Result<Vec<u8>, OutOfMemory>
    requires { IsScriptHob (hob_value hob.now) }
    ensures fields { IfOk result (λ body. body.items ≡ joined (fields_of (hob_value hob.now))) }
    ensures len { IfOk result (λ body. length body.items + 8 ≡ length_of (hob_value hob.now)) }
{
    let len = length_of(hob) as usize;
    let mut whole = zeros(alloc, len)?;
    encode_into(hob, whole.as_mut_slice());
    let (_, body) = whole.as_slice().split_at(HEADER_LEN as usize);
    Vec::from_slice(alloc, body).map_err(|_| OutOfMemory)
}

impl PlainStore {
    ghost use Rattle.store_plain.specs.PlainState.{state_of};

    // Makes a HOB after the others, and answers its address.
    pub(crate) fn make_hob(&mut self, hob: &Hob<'_>) -> Result<u64, StoreFault>
        requires { IsScriptHob (hob_value hob.now) }
        ensures answer { Answers true (create_hob (state_of self.old) (hob_value hob.now)) (state_of self.old) result (state_of self.new) }
        ensures fields { OnOk result (8 + length (joined (fields_of (hob_value hob.now))) ≡ length_of (hob_value hob.now)) }
    {
        if self.free() < length_of(hob) as u64 {
            return Err(StoreFault::Full);
        }
        let body = body_of(*self.hobs.allocator(), hob)?;
        let address = self.base + self.end;
        self.put_behind(PlainHob::new(kind_of(hob), PlainBody::Bytes(body)))?;
        Ok(address)
    }
}
