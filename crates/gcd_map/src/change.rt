// The ranges of a space after a change.
ghost use Rattle.std.specs.Prelude.{◌≡◌, ◌<◌, ◌≤◌, ◌+◌, ◌^◌, ℕ, length, take, IfOk, OnOk, OnErr};
ghost use Rattle.std.specs.List.{splice};
ghost use Rattle.gcd_map.specs.declared.state.SpaceState.{SpaceState};
ghost use Rattle.gcd_map.specs.Ranges.{Cover, Differ, DoesFit};
ghost use Rattle.pi_base.specs.Lists.{Each};
ghost use Rattle.gcd_map.specs.Growing.{Opens, Extends, ExtendsBy, Replaces, after};

use crate::range::GcdRange;
use crate::search::{first_meeting, from_index, index_of};
use crate::state::{Effect, SpaceState};
use pi_base::{OutOfMemory, Seq};
use std::alloc::Global;

// Where a range of this state that ends the list begins, without that range; `from` where there is none.
fn open_range(ranges: &mut Seq<GcdRange>, from: u64, state: SpaceState) -> Result<u64, OutOfMemory>
    ensures { IfOk result (λ base. Opens ranges.old from state ranges.new base) }
{
    match ranges.pop() {
        None => Ok(from),
        Some(last) => {
            if last.state() == state {
                return Ok(last.base);
            }
            ranges.push(last)?;
            Ok(from)
        }
    }
}

// Lets the list go on from one address to another with a state.
fn extend(
    ranges: &mut Seq<GcdRange>,
    from: u64,
    to: u64,
    state: SpaceState,
) -> Result<(), OutOfMemory>
    requires { from ≤ to }
    ensures { OnOk result (Extends ranges.old from to state ranges.new) }
{
    if from == to {
        return Ok(());
    }
    let base = open_range(ranges, from, state)?;
    ranges.push(GcdRange {
        base,
        len: to.saturating_sub(base),
        kind: state.kind,
        allocated: state.allocated,
    })
}

// Lets the list go on with a range in which the addresses from `base` on below `end` change.
fn extend_by(
    ranges: &mut Seq<GcdRange>,
    range: GcdRange,
    base: u64,
    end: u64,
    effect: Effect,
) -> Result<(), OutOfMemory>
    requires order { base ≤ end }
    requires fits { DoesFit range }
    ensures { OnOk result (ExtendsBy ranges.old range base end effect ranges.new) }
{
    let to = range.base + range.len;
    let low = base.max(range.base).min(to);
    let high = end.max(range.base).min(to);
    let state = range.state();
    extend(ranges, range.base, low, state)?;
    extend(ranges, low, high, effect.on(state))?;
    extend(ranges, high, to, state)
}

// The ranges that come in the place of some where the addresses from `base` on below `end` change.
fn replacement(
    alloc: Global,
    met: &[GcdRange],
    base: u64,
    end: u64,
    effect: Effect,
) -> Result<Seq<GcdRange>, OutOfMemory>
    requires order { base ≤ end }
    requires fit { Each DoesFit met.now }
    ensures { IfOk result (Replaces met.now base end effect) }
{
    let mut new = Seq::new(alloc);
    let mut rest = met;
    'met: while let Some((range, after)) = rest.split_first() {
        extend_by(&mut new, *range, base, end, effect)?;
        rest = after;
    }
    Ok(new)
}

// The ranges before an index.
fn before_index(ranges: &[GcdRange], at: usize) -> &[GcdRange]
    requires { at ≤ length ranges.now }
    ensures { result.now ≡ take at ranges.now }
{
    &ranges[..at]
}

// Puts a list in the place of the `count` ranges from an index on. Where memory is wanting the ranges are as they were.
fn put(
    ranges: &mut Vec<GcdRange>,
    at: usize,
    count: usize,
    new: Vec<GcdRange>,
) -> Result<(), OutOfMemory>
    requires { at + count ≤ length ranges.old.items }
    ensures ok { OnOk result (ranges.new.items ≡ splice ranges.old.items at (at + count) new.items) }
    ensures err { OnErr result (ranges.new.items ≡ ranges.old.items) }
{
    match ranges.splice(at..at + count, new) {
        Ok(_) => Ok(()),
        Err(_) => Err(OutOfMemory),
    }
}

// Changes the addresses from `base` on below `end`. Where memory is wanting the ranges are as they were.
//
// The ranges that the change meets are replaced, with the one before it, which may become one with it; all others stay.
pub(crate) fn change(
    ranges: &mut Vec<GcdRange>,
    base: u64,
    end: u64,
    effect: Effect,
) -> Result<(), OutOfMemory>
    requires order { base < end }
    requires covered { (space : ℕ → SpaceState) × (limit : ℕ) × Cover space 0 ranges.old.items limit × (end ≤ limit) × (limit < 2 ^ 64) }
    ensures covers { OnOk result ((space : ℕ → SpaceState) (limit : ℕ) → Cover space 0 ranges.old.items limit → end ≤ limit
        → Cover (after space base end effect) 0 ranges.new.items limit) }
    ensures differ { OnOk result (Differ ranges.old.items → Differ ranges.new.items) }
    ensures same { OnErr result (ranges.new.items ≡ ranges.old.items) }
{
    let old = ranges.as_slice();
    let at = first_meeting(old, base);
    let rest = from_index(old, at);
    let count = index_of(rest, end) + 1;
    let met = before_index(rest, count);
    let new = replacement(*ranges.allocator(), met, base, end, effect)?;
    put(ranges, at, count, new.into_vec())
}
