// The memory space map of a HOB list.
ghost use Rattle.std.specs.Prelude.{◌≡◌, ◌≢◌, ◌⊎◌, ◌<◌, ◌≤◌, ◌^◌, ℕ, List, length, IfOk, IfErr, IfSome, MatchResult};
ghost use Rattle.pi_base.specs.Lists.{Each};
ghost use Rattle.gcd_map.specs.{declared.fault.GcdFault.GcdFault, declared.fault.GcdCause.TheVariants.Memory, AddressSpace.MemorySpace};
ghost use Rattle.gcd_map.specs.{SpaceMap.Shows, HobFaults.IsBitsFault, HobFaults.IsFirstFault, Places.IsNear};
ghost use Rattle.gcd_map.specs.HobMap.{first_cpu, AreBitsOf, IsSpaceOf};

use crate::fault::{GcdCause, GcdFault};
use crate::fill::fill;
use crate::hob::{CpuSize, cpu_at};
use crate::map::{GcdMap, LEAST_BITS, MOST_BITS};
use crate::walk::places_of;
use hob_codec::{HobPlace, one_walk};
use std::alloc::Global;

/// The most bytes of a HOB list.
pub const MOST_BYTES: usize = 0x10_0000;

// The first CPU HOB.
fn first_cpu(bytes: &[u8], places: &[HobPlace]) -> Option<CpuSize>
    requires { Each IsNear places.now }
    ensures first { result ≡ first_cpu bytes.now places.now }
    ensures near { IfSome result (λ cpu. cpu.at < 2 ^ 32) }
{
    let mut rest = places;
    'cpus: while let Some((place, after)) = rest.split_first() {
        if let Some(cpu) = cpu_at(bytes, place.at) {
            return Some(cpu);
        }
        rest = after;
    }
    None
}

// The bits of an address, from the first CPU HOB.
fn bits_of(bytes: &[u8], places: &[HobPlace]) -> Result<u8, GcdFault>
    requires { Each IsNear places.now }
    ensures { MatchResult result (AreBitsOf (first_cpu bytes.now places.now)) (IsBitsFault (first_cpu bytes.now places.now)) }
{
    let Some(cpu) = first_cpu(bytes, places) else {
        return Err(GcdFault {
            cause: GcdCause::NoCpu,
            at: 0,
        });
    };
    if LEAST_BITS <= cpu.bits && cpu.bits <= MOST_BITS {
        Ok(cpu.bits)
    } else {
        Err(GcdFault {
            cause: GcdCause::Bits,
            at: cpu.at as u32,
        })
    }
}

/// The memory space map of a HOB list: its resources, of which no two may overlap, and then its allocations, of free system memory.
///
/// The faults are tested in this order: those of the list itself; `NoCpu` and `Bits` of the first CPU HOB; `Range` and `Overlap` of each resource in order;
/// `Outside` of each allocation in order.
pub fn from_hobs(alloc: Global, bytes: &[u8]) -> Result<GcdMap, GcdFault>
    requires { length bytes.now ≤ MOST_BYTES }
    ensures found { IfOk result (λ map. (space : MemorySpace) × IsSpaceOf bytes.now space × Shows map space) }
    ensures fault { IfErr result (λ fault. fault.cause ≢ Memory → IsFirstFault bytes.now fault) }
{
    let places = places_of(alloc, bytes)?;
    let bits = bits_of(bytes, places.as_slice())?;
    let mut map = GcdMap::empty(alloc, bits)?;
    fill(&mut map, bytes, places.as_slice())?;
    Ok(map)
}

/// Bytes are one memory space, or they have one first fault, and never both.
pub fn one_space()
    ensures spaces { (bytes : List ℕ) (a b : MemorySpace) → IsSpaceOf bytes a → IsSpaceOf bytes b → a ≡ b }
    ensures faults { (bytes : List ℕ) (a b : GcdFault) → IsFirstFault bytes a → IsFirstFault bytes b → a ≡ b }
    ensures apart { (bytes : List ℕ) (space : MemorySpace) (fault : GcdFault) → IsSpaceOf bytes space → IsFirstFault bytes fault → ⊥ }
    ensures some { (bytes : List ℕ) → ((space : MemorySpace) × IsSpaceOf bytes space) ⊎ ((fault : GcdFault) × IsFirstFault bytes fault) }
{
    one_walk();
}
