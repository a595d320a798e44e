// Look-ups and tests of ranges.
ghost use Rattle.std.specs.Prelude.{◌≡◌, ◌⊎◌, ◌<◌, ◌≤◌, ◌+◌, ℕ, length, drop, MatchBool};
ghost use Rattle.gcd_map.specs.{declared.state.SpaceState.SpaceState, Ranges.Cover, Ranges.DoesFit, Stretch.AllIn, Stretch.SomeIn};
ghost use Rattle.pi_base.specs.Lists.{Each};
ghost use Rattle.gcd_map.specs.Tests.{Meets, Misses, EachMeets, SomeMisses, IsRangeOf, base_at, IsHighestIn, IsHighest};

use crate::need::Need;
use crate::range::GcdRange;
use crate::state::SpaceState;

// The index of the range that holds an address, by bisection.
pub(crate) fn index_of(ranges: &[GcdRange], address: u64) -> usize
    requires some { 0 < length ranges.now }
    requires first { base_at ranges.now 0 ≤ address }
    ensures { IsRangeOf ranges.now address result }
{
    let mut low = 0;
    let mut high = ranges.len();
    'bisection: while high - low > 1 {
        let middle = low + (high - low) / 2;
        if ranges[middle].base <= address {
            low = middle;
        } else {
            high = middle;
        }
    }
    low
}

// The index of the range that holds the address before this one, or the first.
pub(crate) fn first_meeting(ranges: &[GcdRange], address: u64) -> usize
    requires some { 0 < length ranges.now }
    requires first { base_at ranges.now 0 ≡ 0 }
    ensures within { result < length ranges.now }
    ensures before { (result ≡ 0) ⊎ (base_at ranges.now result < address) }
{
    if address == 0 {
        0
    } else {
        index_of(ranges, address - 1)
    }
}

// The ranges from an index on.
pub(crate) fn from_index(ranges: &[GcdRange], at: usize) -> &[GcdRange]
    requires { at ≤ length ranges.now }
    ensures { result.now ≡ drop at ranges.now }
{
    &ranges[at..]
}

// Whether each range with a base below `end` is as needed.
fn each_meets(ranges: &[GcdRange], end: u64, need: Need) -> bool
    ensures { MatchBool result (EachMeets need end ranges.now) (SomeMisses need end ranges.now) }
{
    let mut rest = ranges;
    'tests: while let Some((range, after)) = rest.split_first() {
        if range.base >= end {
            return true;
        }
        if !need.is_met(range.state()) {
            return false;
        }
        rest = after;
    }
    true
}

// Whether each address from `base` on below `end` is as needed.
pub(crate) fn all_meet(ranges: &[GcdRange], base: u64, end: u64, need: Need) -> bool
    requires covered { (space : ℕ → SpaceState) × (limit : ℕ) × Cover space 0 ranges.now limit × (end ≤ limit) }
    requires some { base < end }
    ensures { (space : ℕ → SpaceState) (limit : ℕ) → Cover space 0 ranges.now limit → end ≤ limit
        → MatchBool result (AllIn space base end (Meets need)) (SomeIn space base end (Misses need)) }
{
    each_meets(from_index(ranges, index_of(ranges, base)), end, need)
}

// The highest base in a range that is a multiple of the unit and has `len` addresses after it.
fn highest_in(range: GcdRange, state: SpaceState, unit: u64, len: u64) -> Option<u64>
    requires unit { 0 < unit }
    requires fits { DoesFit range }
    ensures { IsHighestIn range state unit len result }
{
    if range.state() != state || range.len < len {
        return None;
    }
    let last = range.base + (range.len - len);
    let base = last - last % unit;
    if base < range.base { None } else { Some(base) }
}

// The highest base in the last range that has one.
pub(crate) fn highest(ranges: &[GcdRange], state: SpaceState, unit: u64, len: u64) -> Option<u64>
    requires unit { 0 < unit }
    requires fit { Each DoesFit ranges.now }
    ensures { IsHighest ranges.now state unit len result }
{
    let mut left = ranges.len();
    'rooms: while left > 0 {
        left -= 1;
        if let Some(base) = highest_in(ranges[left], state, unit, len) {
            return Some(base);
        }
    }
    None
}
