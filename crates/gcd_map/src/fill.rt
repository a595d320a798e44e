// The resources and allocations of a HOB list, one after another.
ghost use Rattle.std.specs.Prelude.{◌≡◌, ◌≢◌, ◌<◌, ◌^◌, true, IfOk, MatchResult, IsPermutation};
ghost use Rattle.pi_base.specs.Lists.{Each};
ghost use Rattle.gcd_map.specs.{declared.fault.GcdCause.TheVariants.Memory, AddressSpace.MemorySpace, SpaceMap.Shows};
ghost use Rattle.gcd_map.specs.HobMap.{resource_at, allocation_at, resources, allocations, MayCome, Comes, came, MayBeTaken, taken, Follow, IsFilled};
ghost use Rattle.gcd_map.specs.HobFaults.{ComesNot, IsNotTaken, Stops, IsMemoryFault};
ghost use Rattle.gcd_map.specs.Places.{IsNear, resource_cause, allocation_cause, Step, IsStepFault};

use crate::fault::{GcdCause, GcdFault};
use crate::hob::{HobStretch, allocation_at, resource_at};
use crate::map::GcdMap;
use crate::state::GcdKind;
use crate::word::GcdWord;
use hob_codec::HobPlace;
use pi_base::{OutOfMemory, Seq};
use std::alloc::Global;

fn resource_cause(word: GcdWord) -> GcdCause
    ensures { result ≡ resource_cause word }
{
    match word {
        GcdWord::AccessDenied => GcdCause::Overlap,
        GcdWord::Memory => GcdCause::Memory,
        _ => GcdCause::Range,
    }
}

fn allocation_cause(word: GcdWord) -> GcdCause
    ensures { result ≡ allocation_cause word }
{
    match word {
        GcdWord::Memory => GcdCause::Memory,
        _ => GcdCause::Outside,
    }
}

// The resources, in order of base.
fn resources_by_base(
    alloc: Global,
    bytes: &[u8],
    places: &[HobPlace],
) -> Result<Vec<HobStretch>, OutOfMemory>
    ensures { IfOk result (λ sorted. IsPermutation (resources bytes.now places.now) sorted.items) }
{
    let mut sorted = Seq::new(alloc);
    let mut rest = places;
    'places: while let Some((place, after)) = rest.split_first() {
        if let Some(resource) = resource_at(bytes, place.at) {
            sorted.push(resource)?;
        }
        rest = after;
    }
    let mut sorted = sorted.into_vec();
    sorted.sort_unstable_by_key(|resource| resource.base);
    Ok(sorted)
}

// The allocations, in order of base.
fn allocations_by_base(
    alloc: Global,
    bytes: &[u8],
    places: &[HobPlace],
) -> Result<Vec<HobStretch>, OutOfMemory>
    ensures { IfOk result (λ sorted. IsPermutation (allocations bytes.now places.now) sorted.items) }
{
    let mut sorted = Seq::new(alloc);
    let mut rest = places;
    'places: while let Some((place, after)) = rest.split_first() {
        if let Some(allocation) = allocation_at(bytes, place.at) {
            sorted.push(allocation)?;
        }
        rest = after;
    }
    let mut sorted = sorted.into_vec();
    sorted.sort_unstable_by_key(|allocation| allocation.base);
    Ok(sorted)
}

// Adds resources, until one cannot come; whether all came.
fn add_each(map: &mut GcdMap, stretches: &[HobStretch]) -> bool
    ensures { result ≡ true → (space : MemorySpace) → Shows map.old space
        → (end : MemorySpace) × Follow Comes came space stretches.now end × Shows map.new end }
{
    let mut rest = stretches;
    'stretches: while let Some((stretch, after)) = rest.split_first() {
        if map.add(stretch.kind, stretch.base, stretch.len).is_err() {
            return false;
        }
        rest = after;
    }
    true
}

// Allocates stretches, until one cannot be taken; whether all were.
fn take_each(map: &mut GcdMap, stretches: &[HobStretch]) -> bool
    ensures { result ≡ true → (space : MemorySpace) → Shows map.old space
        → (end : MemorySpace) × Follow MayBeTaken taken space stretches.now end × Shows map.new end }
{
    let mut rest = stretches;
    'stretches: while let Some((stretch, after)) = rest.split_first() {
        if map
            .allocate(GcdKind::System, stretch.base, stretch.len)
            .is_err()
        {
            return false;
        }
        rest = after;
    }
    true
}

// Adds the resource at a place, if one is there.
fn add_at(map: &mut GcdMap, bytes: &[u8], at: usize) -> Result<(), GcdFault>
    requires near { at < 2 ^ 32 }
    ensures { (space : MemorySpace) → Shows map.old space
        → MatchResult result (λ _. Step MayCome came space (resource_at bytes.now at) map.new)
        (IsStepFault ComesNot space (resource_at bytes.now at)) }
{
    let Some(resource) = resource_at(bytes, at) else {
        return Ok(());
    };
    match map.add(resource.kind, resource.base, resource.len) {
        Ok(()) => Ok(()),
        Err(word) => Err(GcdFault {
            cause: resource_cause(word),
            at: at as u32,
        }),
    }
}

// Allocates the memory of the HOB at a place, if it is an allocation HOB.
fn take_at(map: &mut GcdMap, bytes: &[u8], at: usize) -> Result<(), GcdFault>
    requires near { at < 2 ^ 32 }
    ensures { (space : MemorySpace) → Shows map.old space
        → MatchResult result (λ _. Step MayBeTaken taken space (allocation_at bytes.now at) map.new)
        (IsStepFault IsNotTaken space (allocation_at bytes.now at)) }
{
    let Some(allocation) = allocation_at(bytes, at) else {
        return Ok(());
    };
    match map.allocate(GcdKind::System, allocation.base, allocation.len) {
        Ok(()) => Ok(()),
        Err(word) => Err(GcdFault {
            cause: allocation_cause(word),
            at: at as u32,
        }),
    }
}

// Adds the resources in order, up to the first that cannot come.
fn add_in_order(map: &mut GcdMap, bytes: &[u8], places: &[HobPlace]) -> Result<(), GcdFault>
    requires near { Each IsNear places.now }
    ensures { (space : MemorySpace) → Shows map.old space
        → MatchResult result
        (λ _. (end : MemorySpace) × Follow MayCome came space (resources bytes.now places.now) end × Shows map.new end)
        (λ fault. fault.cause ≢ Memory → Stops MayCome came ComesNot space (resources bytes.now places.now) fault) }
{
    let mut rest = places;
    'resources: while let Some((place, after)) = rest.split_first() {
        add_at(map, bytes, place.at)?;
        rest = after;
    }
    Ok(())
}

// Adds the resources. In order of base each comes near the end of the map; only where one cannot come does their own order tell which is the first.
fn add_resources(map: &mut GcdMap, bytes: &[u8], places: &[HobPlace]) -> Result<(), GcdFault>
    requires near { Each IsNear places.now }
    ensures { (space : MemorySpace) → Shows map.old space
        → MatchResult result
        (λ _. (end : MemorySpace) × Follow MayCome came space (resources bytes.now places.now) end × Shows map.new end)
        (λ fault. fault.cause ≢ Memory → Stops MayCome came ComesNot space (resources bytes.now places.now) fault) }
{
    let sorted = resources_by_base(map.alloc(), bytes, places)?;
    let mut trial = map.copy()?;
    if add_each(&mut trial, sorted.as_slice()) {
        *map = trial;
        return Ok(());
    }
    add_in_order(map, bytes, places)
}

// Allocates the allocations in order, up to the first that cannot be taken.
fn take_in_order(map: &mut GcdMap, bytes: &[u8], places: &[HobPlace]) -> Result<(), GcdFault>
    requires near { Each IsNear places.now }
    ensures { (space : MemorySpace) → Shows map.old space
        → MatchResult result
        (λ _. (end : MemorySpace) × Follow MayBeTaken taken space (allocations bytes.now places.now) end × Shows map.new end)
        (λ fault. fault.cause ≢ Memory → Stops MayBeTaken taken IsNotTaken space (allocations bytes.now places.now) fault) }
{
    let mut rest = places;
    'allocations: while let Some((place, after)) = rest.split_first() {
        take_at(map, bytes, place.at)?;
        rest = after;
    }
    Ok(())
}

// Allocates the allocations, in order of base as the resources are added.
fn take_allocations(map: &mut GcdMap, bytes: &[u8], places: &[HobPlace]) -> Result<(), GcdFault>
    requires near { Each IsNear places.now }
    ensures { (space : MemorySpace) → Shows map.old space
        → MatchResult result
        (λ _. (end : MemorySpace) × Follow MayBeTaken taken space (allocations bytes.now places.now) end × Shows map.new end)
        (λ fault. fault.cause ≢ Memory → Stops MayBeTaken taken IsNotTaken space (allocations bytes.now places.now) fault) }
{
    let sorted = allocations_by_base(map.alloc(), bytes, places)?;
    let mut trial = map.copy()?;
    if take_each(&mut trial, sorted.as_slice()) {
        *map = trial;
        return Ok(());
    }
    take_in_order(map, bytes, places)
}

// Adds the resources, and then allocates the allocations.
pub(crate) fn fill(map: &mut GcdMap, bytes: &[u8], places: &[HobPlace]) -> Result<(), GcdFault>
    requires near { Each IsNear places.now }
    ensures { (space : MemorySpace) → Shows map.old space
        → MatchResult result (λ _. (end : MemorySpace) × IsFilled bytes.now places.now space end × Shows map.new end)
        (λ fault. fault.cause ≢ Memory → IsMemoryFault bytes.now places.now space fault) }
{
    match add_resources(map, bytes, places) {
        Ok(()) => take_allocations(map, bytes, places),
        Err(fault) => Err(fault),
    }
}
