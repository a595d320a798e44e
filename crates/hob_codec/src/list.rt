// The places of a HOB list.
ghost use Rattle.std.specs.Prelude.{◌≡◌, ◌≢◌, ◌⊎◌, ◌≤◌, ◌+◌, ℕ, List, length, IfOk, IfErr, Some, None, MatchResult};
ghost use Rattle.hob_codec.specs.{HobList.AreHobs, HobList.IsListFault, declared.list.HobPlace.HobPlace, declared.fault.HobFault.HobFault};
ghost use Rattle.hob_codec.specs.declared.fault.HobFault.TheVariants.{Memory};

use crate::fault::HobFault;
use crate::kind::{END, HANDOFF};
use crate::read::read_at;
use pi_base::{Seq, u16_at};
use std::alloc::Global;

/// A HOB of a list, by its offset in the bytes.
#[derive(Clone, Copy, PartialEq, Eq)]
pub struct HobPlace {
    /// The offset of its header.
    pub at: usize,
    /// HobType.
    pub kind: u16,
    /// HobLength, which has the header in it.
    pub length: u16,
}

impl HobPlace {
    ghost use Rattle.hob_codec.specs.HobList.{place_at, fault_at};

    /// The HOB at an offset of a list, or the list's fault there.
    pub fn at(bytes: &[u8], at: usize) -> Result<HobPlace, HobFault>
        ensures { MatchResult result
            (λ place. (fault_at bytes.now at ≡ None) × (place ≡ place_at bytes.now at) × (8 ≤ place.length)
            × (at + place.length ≤ length bytes.now)) (λ fault. fault_at bytes.now at ≡ Some fault) }
    {
        if at >= bytes.len() {
            return Err(HobFault::NoEnd);
        }
        read_at(bytes, at)?;
        let kind = u16_at(bytes, at);
        let length = u16_at(bytes, at + 2);
        if at == 0 && kind != HANDOFF {
            Err(HobFault::Form)
        } else {
            Ok(HobPlace { at, kind, length })
        }
    }
}

/// The offsets of the HOBs from the front to the first end HOB, which is not included.
///
/// The fault is the one at the first offset that has one: `NoEnd` if no byte is left, then `Short`, `Length` and `Form` as `read_at` returns them, and `Form`
/// if the first HOB is not a hand-off HOB.
pub fn walk(alloc: Global, bytes: &[u8]) -> Result<Seq<HobPlace>, HobFault>
    ensures found { IfOk result (AreHobs bytes.now) }
    ensures fault { IfErr result (λ fault. fault ≢ Memory → IsListFault bytes.now fault) }
{
    let mut places = Seq::new(alloc);
    let mut at = 0usize;
    'walk: loop {
        let place = HobPlace::at(bytes, at)?;
        if place.kind == END {
            return Ok(places);
        }
        places.push(place)?;
        at += place.length as usize;
    }
}

/// Bytes are one HOB list, or they have one first fault, and never both.
pub fn one_walk()
    ensures lists { (bytes : List ℕ) (a b : List HobPlace) → AreHobs bytes a → AreHobs bytes b → a ≡ b }
    ensures faults { (bytes : List ℕ) (a b : HobFault) → IsListFault bytes a → IsListFault bytes b → a ≡ b }
    ensures apart { (bytes : List ℕ) (places : List HobPlace) (fault : HobFault) → AreHobs bytes places → IsListFault bytes fault → ⊥ }
    ensures some { (bytes : List ℕ) → ((places : List HobPlace) × AreHobs bytes places) ⊎ ((fault : HobFault) × IsListFault bytes fault) }
{}
