// The memory space map.
ghost use Rattle.std.specs.Prelude.{◌≡◌, ◌<◌, ◌≤◌, ◌+◌, ◌^◌, IfOk, SomeIff, MatchBool, MatchResult};
ghost use Rattle.gcd_map.specs.{declared.word.GcdWord.TheVariants.Memory, Stretch.AllIn, Stretch.SomeIn, Tests.Meets, Tests.Misses};
ghost use Rattle.gcd_map.specs.AddressSpace.{MemorySpace, empty_space, state_at, with_change};
ghost use Rattle.gcd_map.specs.Commands.{AddRow, AllocateRow, TopRow, FreeRow, RemoveRow};
ghost use Rattle.gcd_map.specs.SpaceMap.{IsSpaceMap, Shows, AfterEach};
ghost use Rattle.gcd_map.specs.OneMap.{OneMap};

use crate::change::change;
use crate::need::Need;
use crate::range::GcdRange;
use crate::search::{all_meet, highest};
use crate::state::{Effect, GcdKind, SpaceState};
use crate::word::GcdWord;
use pi_base::OutOfMemory;
use std::alloc::Global;
use std::marker::Model;

/// The greatest alignment that `top` takes, as a power of 2.
pub const MOST_ALIGN: u8 = 52;

/// The fewest bits of an address.
pub const LEAST_BITS: u8 = 12;

/// The most bits of an address.
pub const MOST_BITS: u8 = 52;

/// The memory space map.
#[derive(Drop)]
pub struct GcdMap {
    // The address after the last.
    limit: u64,
    ranges: Vec<GcdRange>,
}

impl Model for GcdMap {
    ghost use Rattle.gcd_map.specs.SpaceMap.{MapState, ShowsSome};

    ghost Value = { MapState };

    ghost view = { λ m. record { limit = m.limit; ranges = m.ranges.items } };

    ghost invariant = { λ m. ShowsSome (record { limit = m.limit; ranges = m.ranges.items }) };
}

impl GcdMap {
    // The map of a space with addresses of so many bits, in which nothing is.
    pub(crate) fn empty(alloc: Global, bits: u8) -> Result<GcdMap, OutOfMemory>
        requires { bits ≤ MOST_BITS }
        ensures { IfOk result (λ map. Shows map (empty_space (2 ^ bits))) }
    {
        let limit = unit_of(bits);
        let nothing = GcdRange {
            base: 0,
            len: limit,
            kind: GcdKind::NonExistent,
            allocated: false,
        };
        match Vec::from_slice(alloc, &[nothing]) {
            Ok(ranges) => Ok(GcdMap { limit, ranges }),
            Err(_) => Err(OutOfMemory),
        }
    }

    // A copy of the map.
    pub(crate) fn copy(&self) -> Result<GcdMap, OutOfMemory>
        ensures { IfOk result (λ map. map ≡ self.now) }
    {
        match Vec::from_slice(self.alloc(), self.ranges.as_slice()) {
            Ok(ranges) => Ok(GcdMap {
                limit: self.limit,
                ranges,
            }),
            Err(_) => Err(OutOfMemory),
        }
    }

    // The allocator that the map keeps.
    pub(crate) fn alloc(&self) -> Global {
        *self.ranges.allocator()
    }

    // The address after a stretch, if the stretch is in the memory space.
    fn end_of(&self, base: u64, len: u64) -> Option<u64>
        ensures { SomeIff result (base + len ≤ self.now.limit) (base + len) }
    {
        if len <= self.limit && base <= self.limit - len {
            Some(base + len)
        } else {
            None
        }
    }

    // Whether each address from `base` on below `end` is as needed.
    fn all_meet(&self, base: u64, end: u64, need: Need) -> bool
        requires some { base < end }
        requires within { end ≤ self.now.limit }
        ensures { (space : MemorySpace) → Shows self.now space
            → MatchBool result (AllIn (state_at space) base end (Meets need)) (SomeIn (state_at space) base end (Misses need)) }
    {
        all_meet(self.ranges.as_slice(), base, end, need)
    }

    // Changes the `len` addresses from `base` on.
    fn change(&mut self, base: u64, len: u64, effect: Effect) -> Result<(), GcdWord>
        requires some { 0 < len }
        requires within { base + len ≤ self.old.limit }
        ensures { (space : MemorySpace) → Shows self.old space
            → MatchResult result (λ _. Shows self.new (with_change space (record { base = base; len = len; effect = effect })))
            (λ word. (word ≡ Memory) × Shows self.new space) }
    {
        change(&mut self.ranges, base, base + len, effect)?;
        Ok(())
    }

    /// Adds memory of a kind at free addresses.
    ///
    /// A refused call changes nothing, here and in the other calls. `InvalidParameter`: no address, or no kind. `Unsupported`: the addresses pass the end of
    /// the memory space. `AccessDenied`: some address has memory already. PI 1.8, volume 2, `AddMemorySpace()`.
    pub fn add(&mut self, kind: GcdKind, base: u64, len: u64) -> Result<(), GcdWord>
        ensures row { AfterEach self.old self.new (λ old new. AddRow kind base len old result new) }
    {
        if len == 0 || kind == GcdKind::NonExistent {
            return Err(GcdWord::InvalidParameter);
        }
        let Some(end) = self.end_of(base, len) else {
            return Err(GcdWord::Unsupported);
        };
        if !self.all_meet(base, end, Need::Absent) {
            return Err(GcdWord::AccessDenied);
        }
        let state = SpaceState {
            kind,
            allocated: false,
        };
        self.change(base, len, Effect::Becomes(state))
    }

    /// Allocates memory at a base.
    ///
    /// `InvalidParameter`: no address, or no kind. `NotFound`: the addresses pass the end of the memory space, or some address is not of the kind or not free.
    /// PI 1.8, volume 2, `AllocateMemorySpace()`, `EfiGcdAllocateAddress`.
    pub fn allocate(&mut self, kind: GcdKind, base: u64, len: u64) -> Result<(), GcdWord>
        ensures row { AfterEach self.old self.new (λ old new. AllocateRow kind base len old result new) }
    {
        if len == 0 || kind == GcdKind::NonExistent {
            return Err(GcdWord::InvalidParameter);
        }
        let Some(end) = self.end_of(base, len) else {
            return Err(GcdWord::NotFound);
        };
        if !self.all_meet(base, end, Need::FreeOf(kind)) {
            return Err(GcdWord::NotFound);
        }
        let state = SpaceState {
            kind,
            allocated: true,
        };
        self.change(base, len, Effect::Becomes(state))
    }

    /// Allocates memory at the greatest base that is a multiple of 2^`align`, and returns the base.
    ///
    /// `InvalidParameter`: no address, no kind, or `align` above `MOST_ALIGN`. `NotFound`: there is no such base. PI 1.8, volume 2, `AllocateMemorySpace()`,
    /// `EfiGcdAllocateAnySearchTopDown`.
    pub fn top(&mut self, kind: GcdKind, align: u8, len: u64) -> Result<u64, GcdWord>
        ensures row { AfterEach self.old self.new (λ old new. TopRow kind align len old result new) }
    {
        if len == 0 || kind == GcdKind::NonExistent || align > MOST_ALIGN {
            return Err(GcdWord::InvalidParameter);
        }
        let free = SpaceState {
            kind,
            allocated: false,
        };
        let Some(base) = highest(self.ranges.as_slice(), free, unit_of(align), len) else {
            return Err(GcdWord::NotFound);
        };
        let state = SpaceState {
            kind,
            allocated: true,
        };
        self.change(base, len, Effect::Becomes(state))?;
        Ok(base)
    }

    /// Makes allocated memory free.
    ///
    /// `InvalidParameter`: no address. `Unsupported`: the addresses pass the end of the memory space. `NotFound`: some address is not allocated. PI 1.8, volume
    /// 2, `FreeMemorySpace()`.
    pub fn free(&mut self, base: u64, len: u64) -> Result<(), GcdWord>
        ensures row { AfterEach self.old self.new (λ old new. FreeRow base len old result new) }
    {
        if len == 0 {
            return Err(GcdWord::InvalidParameter);
        }
        let Some(end) = self.end_of(base, len) else {
            return Err(GcdWord::Unsupported);
        };
        if !self.all_meet(base, end, Need::Allocated) {
            return Err(GcdWord::NotFound);
        }
        self.change(base, len, Effect::Freed)
    }

    /// Removes free memory.
    ///
    /// `InvalidParameter`: no address. `Unsupported`: the addresses pass the end of the memory space. `NotFound`: some address has no memory. `AccessDenied`:
    /// some address is allocated. PI 1.8, volume 2, `RemoveMemorySpace()`.
    pub fn remove(&mut self, base: u64, len: u64) -> Result<(), GcdWord>
        ensures row { AfterEach self.old self.new (λ old new. RemoveRow base len old result new) }
    {
        if len == 0 {
            return Err(GcdWord::InvalidParameter);
        }
        let Some(end) = self.end_of(base, len) else {
            return Err(GcdWord::Unsupported);
        };
        if !self.all_meet(base, end, Need::Present) {
            return Err(GcdWord::NotFound);
        }
        if !self.all_meet(base, end, Need::Free) {
            return Err(GcdWord::AccessDenied);
        }
        let state = SpaceState {
            kind: GcdKind::NonExistent,
            allocated: false,
        };
        self.change(base, len, Effect::Becomes(state))
    }

    /// The ranges of the map, in order of base. No range is empty, there is no gap from 0 to the end of the memory space, and neighbours differ.
    pub fn map(&self) -> &[GcdRange]
        ensures shown { (space : MemorySpace) → Shows self.now space → IsSpaceMap space result.now }
        ensures ranges { result.now ≡ self.now.ranges }
    {
        self.ranges.as_slice()
    }
}

// The number of addresses between two multiples of an alignment.
fn unit_of(align: u8) -> u64
    requires { align ≤ MOST_ALIGN }
    ensures power { result ≡ 2 ^ align }
    ensures some { 0 < result }
    ensures most { result ≤ 2 ^ MOST_ALIGN }
{
    1 << align
}

/// Spaces with the same addresses in the same states have the same map.
pub fn one_map()
    ensures { OneMap }
{}
