// The pairs that a sweep has still to visit.
ghost use Rattle.std.specs.Prelude.{◌≡◌, ℕ, [], true};
ghost use Rattle.store_model.specs.{StoreState.StoreState, StateFacts.IsSweepOf, StoreCall.IsMatch};
ghost use Rattle.store_model.specs.Service.Sweep as W;
ghost use Rattle.store_model.specs.{declared.store_handle.EntryList.TheVariants.Ppis, declared.store_handle.Sweep.Sweep as OfSweep};
ghost use Rattle.pei_heap.specs.{HeapMemory.IsHeapOf, Linked.IsLinked, Walk.address_from};
ghost use Rattle.pei_heap.specs.Matching.{AreCallbacks, IsFirstMatch, IsNextPair, IsRow};

use crate::Heap;
use crate::links::descriptor::{guid_of, number_of};
use crate::links::heads::Heads;
use crate::links::pairs::is_of;
use crate::links::walk::{address_at, entry_from};
use phys_mem::PhysMem;
use pi_base::Guid;
use store_laws::{named_are_there, sweeps_go_on};
use store_model::{Desc, Firing, Sweep};

/// A callback that is found: its place in the list, and the block that runs.
#[derive(Clone, Copy)]
pub(crate) struct Match {
    pub(crate) place: u32,
    pub(crate) entry: u32,
}

/// A pair that fires: the places of the PPI and of the callback, and what the callback receives.
#[derive(Clone, Copy)]
pub(crate) struct Pair {
    pub(crate) ppi: u32,
    pub(crate) note: u32,
    pub(crate) firing: Firing,
}

// Whether no pair is left, by the places alone.
fn has_ended(sweep: &Sweep) -> bool
    ensures { result ≡ true → W.pairs_left sweep.now ≡ [] }
{
    if sweep.ppi_to <= sweep.ppi_at {
        return true;
    }
    sweep.note_to <= sweep.note_at && sweep.note_to <= sweep.note_from
}

// The first callback that has the GUID, from the one on whose node is at an address.
fn match_from(
    heap: &Heap,
    memory: &PhysMem,
    first: u64,
    from: u32,
    to: u32,
    guid: &Guid,
) -> Option<Match>
    requires { (s : StoreState) × IsHeapOf heap.now memory.now s × AreCallbacks s first from to }
    ensures { (s : StoreState) (sweep : OfSweep) (ppi : ℕ) → IsHeapOf heap.now memory.now s → AreCallbacks s first from to
        → IsRow s sweep ppi to guid.now → IsFirstMatch s sweep ppi from result }
{
    named_are_there();
    sweeps_go_on();
    let mut at = first;
    'notes: for place in from..to {
        let met = match entry_from(heap, memory, at) {
            Some(met) => met,
            None => return None,
        };
        let note = Desc {
            offset: met.entry.descriptor,
        };
        if is_of(heap, memory, guid, note) {
            let entry = number_of(heap, memory, note) as u32;
            return Some(Match { place, entry });
        }
        at = met.next;
    }
    None
}

// The address of the node of the PPI in a place, or 0.
fn ppi_address(heap: &Heap, memory: &PhysMem, heads: &Heads, place: u32) -> u64
    requires { (s : StoreState) × IsLinked heap.now memory.now heads.now s }
    ensures { (s : StoreState) → IsLinked heap.now memory.now heads.now s → result ≡ address_from s Ppis place }
{
    if heads.ppis > 0 && place == heads.ppis - 1 {
        return heads.ppi_tail;
    }
    address_at(heap, memory, heads.ppi, place)
}

// The first pair that fires.
fn next_pair(heap: &Heap, memory: &PhysMem, heads: &Heads, sweep: &Sweep) -> Option<Pair>
    requires { (s : StoreState) × IsLinked heap.now memory.now heads.now s × IsSweepOf s sweep.now }
    ensures { (s : StoreState) → IsLinked heap.now memory.now heads.now s → IsSweepOf s sweep.now → IsNextPair s sweep.now result }
{
    sweeps_go_on();
    let first = address_at(heap, memory, heads.note, sweep.note_from);
    let mut from = sweep.note_at;
    let mut note = address_at(heap, memory, heads.note, from);
    let mut at = ppi_address(heap, memory, heads, sweep.ppi_at);
    'ppis: for ppi in sweep.ppi_at..sweep.ppi_to {
        let met = match entry_from(heap, memory, at) {
            Some(met) => met,
            None => return None,
        };
        let d = Desc {
            offset: met.entry.descriptor,
        };
        let guid = guid_of(heap, memory, d);
        match match_from(heap, memory, note, from, sweep.note_to, &guid) {
            Some(found) => {
                let firing = Firing {
                    entry: found.entry,
                    ppi: d,
                    guid,
                    value: number_of(heap, memory, d),
                };
                let note = found.place;
                return Some(Pair { ppi, note, firing });
            }
            None => {
                from = sweep.note_from;
                note = first;
                at = met.next;
            }
        }
    }
    None
}

/// The next pair of the sweep that fires now. The sweep then continues after it. None if no pair is left.
pub fn next_match(heap: &Heap, memory: &PhysMem, heads: &Heads, sweep: &mut Sweep) -> Option<Firing>
    requires { (s : StoreState) × IsLinked heap.now memory.now heads.now s × IsSweepOf s sweep.old }
    ensures { (s : StoreState) → IsLinked heap.now memory.now heads.now s → IsSweepOf s sweep.old
        → IsMatch (W.next_match s sweep.old) result sweep.new }
{
    if has_ended(sweep) {
        return None;
    }
    match next_pair(heap, memory, heads, sweep) {
        Some(pair) => {
            sweep.ppi_at = pair.ppi;
            sweep.note_at = pair.note + 1;
            Some(pair.firing)
        }
        None => None,
    }
}
