// The places of a HOB list, or its own fault with its place.
ghost use Rattle.std.specs.Prelude.{◌≡◌, ◌≢◌, ◌<◌, ◌≤◌, ◌+◌, ◌^◌, length, None, IfOk, IfErr, MatchResult};
ghost use Rattle.pi_base.specs.Lists.{Each};
ghost use Rattle.hob_codec.specs.HobList.{AreHobs, fault_at, place_at};
ghost use Rattle.gcd_map.specs.{declared.fault.GcdCause.TheVariants.Memory, HobFaults.walk_cause, HobFaults.IsWalkFault};
ghost use Rattle.gcd_map.specs.Places.{IsNear, IsPlaceFault};

use crate::fault::{GcdCause, GcdFault};
use crate::hobs::MOST_BYTES;
use hob_codec::kind::END;
use hob_codec::{HobFault, HobPlace};
use pi_base::Seq;
use std::alloc::Global;

fn walk_cause(fault: HobFault) -> GcdCause
    ensures { result ≡ walk_cause fault }
{
    match fault {
        HobFault::Short => GcdCause::Short,
        HobFault::Length => GcdCause::Length,
        HobFault::Form => GcdCause::Form,
        HobFault::NoEnd => GcdCause::NoEnd,
        HobFault::Memory => GcdCause::Memory,
    }
}

// The HOB at a place of a list, or the list's fault there, with its place.
fn place_or_fault(bytes: &[u8], at: usize) -> Result<HobPlace, GcdFault>
    requires { at < 2 ^ 32 }
    ensures { MatchResult result
        (λ place. (fault_at bytes.now at ≡ None) × (place ≡ place_at bytes.now at) × (8 ≤ place.length)
        × (at + place.length ≤ length bytes.now))
        (IsPlaceFault bytes.now at) }
{
    match HobPlace::at(bytes, at) {
        Ok(place) => Ok(place),
        Err(fault) => Err(GcdFault {
            cause: walk_cause(fault),
            at: at as u32,
        }),
    }
}

// The places of the HOBs before the end HOB, as `hob_codec::walk` has them; a fault has its place.
pub(crate) fn places_of(alloc: Global, bytes: &[u8]) -> Result<Seq<HobPlace>, GcdFault>
    requires { length bytes.now ≤ MOST_BYTES }
    ensures found { IfOk result (AreHobs bytes.now) }
    ensures near { IfOk result (Each IsNear) }
    ensures fault { IfErr result (λ fault. fault.cause ≢ Memory → IsWalkFault bytes.now fault) }
{
    let mut places = Seq::new(alloc);
    let mut at = 0usize;
    'walk: loop {
        let place = place_or_fault(bytes, at)?;
        if place.kind == END {
            return Ok(places);
        }
        places.push(place)?;
        at += place.length as usize;
    }
}
