// What can be read of the lists.
ghost use Rattle.std.specs.Prelude.{◌≡◌, ℕ, option_map, slice_get};
ghost use Rattle.pi_base.specs.Guids as G;
ghost use Rattle.store_model.specs.{StoreState.StoreState, StateFacts.IsDesc, StoreCall.IsNodeIn};
ghost use Rattle.store_model.specs.{declared.store_handle.DescKind.DescKind as OfKind, declared.store_handle.EntryList.EntryList as OfList};
ghost use Rattle.store_model.specs.declared.store_handle.EntryList.TheVariants as L;
ghost use Rattle.store_model.specs.Service.Descriptor.{guid_at};
ghost use Rattle.store_model.specs.Service.Install as I;
ghost use Rattle.store_model.specs.Service.Reading as R;
ghost use Rattle.pei_heap.specs.{HeapMemory.IsHeapOf, Linked.IsLinked};
ghost use Rattle.pei_heap.specs.Walk.{IsBehind, IsNoteHead, StandsAt, address_from, entries_in};

use crate::links::descriptor::{guid_of, number_of, read_descriptor};
use crate::links::guid::same_guid;
use crate::links::heads::Heads;
use crate::links::node::read_node;
use crate::links::walk::{address_at, entry_from};
use crate::{Heap, word_in};
use phys_mem::PhysMem;
use pi_base::Guid;
use store_laws::heap::nodes_read;
use store_laws::named_are_there;
use store_model::{Desc, DescKind, EntryList, EntryTold};

// Whether a descriptor has a GUID.
pub(crate) fn has_guid(heap: &Heap, memory: &PhysMem, d: Desc, guid: &Guid) -> bool
    requires { (s : StoreState) × IsHeapOf heap.now memory.now s × IsDesc s d }
    ensures { (s : StoreState) → IsHeapOf heap.now memory.now s → IsDesc s d → result ≡ G.same_guid (guid_at s d.offset) guid.now }
{
    same_guid(&guid_of(heap, memory, d), guid)
}

/// Whether a PPI of the GUID is installed.
pub fn has_ppi(heap: &Heap, memory: &PhysMem, heads: &Heads, guid: &Guid) -> bool
    requires { (s : StoreState) × IsLinked heap.now memory.now heads.now s }
    ensures { (s : StoreState) → IsLinked heap.now memory.now heads.now s → result ≡ I.has_ppi s guid.now }
{
    let mut at = heads.ppi;
    'ppis: for _place in 0..heads.ppis {
        let met = match entry_from(heap, memory, at) {
            Some(met) => met,
            None => return false,
        };
        let offset = met.entry.descriptor;
        if has_guid(heap, memory, Desc { offset }, guid) {
            return true;
        }
        at = met.next;
    }
    false
}

/// The n-th PPI of a GUID, from 0, and its value.
pub fn nth_ppi(
    heap: &Heap,
    memory: &PhysMem,
    heads: &Heads,
    guid: &Guid,
    n: u16,
) -> Option<(Desc, u64)>
    requires { (s : StoreState) × IsLinked heap.now memory.now heads.now s }
    ensures { (s : StoreState) → IsLinked heap.now memory.now heads.now s → result ≡ R.nth_ppi s guid.now n }
{
    let mut at = heads.ppi;
    let mut left = n;
    'ppis: for _place in 0..heads.ppis {
        let met = match entry_from(heap, memory, at) {
            Some(met) => met,
            None => return None,
        };
        let d = Desc {
            offset: met.entry.descriptor,
        };
        if has_guid(heap, memory, d, guid) {
            if left == 0 {
                return Some((d, number_of(heap, memory, d)));
            }
            left -= 1;
        }
        at = met.next;
    }
    None
}

// What can be read of the entry whose node is at an address. None at 0.
fn tell_entry(heap: &Heap, memory: &PhysMem, at: u64) -> Option<EntryTold>
    requires { (s : StoreState) × (list : OfList) × (place : ℕ) × IsHeapOf heap.now memory.now s × StandsAt s list place at }
    ensures { (s : StoreState) (list : OfList) (place : ℕ) → IsHeapOf heap.now memory.now s → StandsAt s list place at
        → result ≡ option_map (R.entry_told s) (slice_get (entries_in s list) place) }
{
    let met = match entry_from(heap, memory, at) {
        Some(met) => met,
        None => return None,
    };
    let offset = met.entry.descriptor;
    let told = read_descriptor(heap, memory, Desc { offset });
    Some(EntryTold {
        node: met.entry.node,
        guid: told.guid,
        number: told.number,
        by: met.entry.by,
    })
}

// What can be read of the queued pair whose node is at an address. None at 0.
fn tell_pair(heap: &Heap, memory: &PhysMem, at: u64) -> Option<EntryTold>
    requires { (s : StoreState) × (place : ℕ) × IsHeapOf heap.now memory.now s × (at ≡ address_from s L.Pendings place) }
    ensures { (s : StoreState) (place : ℕ) → IsHeapOf heap.now memory.now s → at ≡ address_from s L.Pendings place
        → result ≡ option_map (R.pending_told s) (slice_get s.pendings place) }
{
    named_are_there();
    if at == 0 {
        return None;
    }
    let base = heap.span.base;
    let node = read_node(&heap.bytes(memory), base, at);
    let ppi = Desc {
        offset: node.second - base,
    };
    let note = Desc {
        offset: node.descriptor - base,
    };
    let guid = guid_of(heap, memory, ppi);
    let number = number_of(heap, memory, note);
    Some(EntryTold {
        node: at - base,
        guid,
        number,
        by: node.by,
    })
}

/// The GUID, the value and the module of the PPI at a place, from 0. None past the last.
pub fn ppi_at(heap: &Heap, memory: &PhysMem, heads: &Heads, place: u32) -> Option<(Guid, u64, u32)>
    requires { (s : StoreState) × IsLinked heap.now memory.now heads.now s }
    ensures { (s : StoreState) → IsLinked heap.now memory.now heads.now s → result ≡ R.ppi_at s place }
{
    match tell_entry(heap, memory, address_at(heap, memory, heads.ppi, place)) {
        Some(told) => Some((told.guid, told.number, told.by)),
        None => None,
    }
}

// GUID and entry of the notification in a place of the list with this first node.
fn note_from(heap: &Heap, memory: &PhysMem, head: u64, place: u32) -> Option<(Guid, u32)>
    requires { (s : StoreState) × (kind : OfKind) × IsHeapOf heap.now memory.now s × IsNoteHead s kind head }
    ensures { (s : StoreState) (kind : OfKind) → IsHeapOf heap.now memory.now s → IsNoteHead s kind head
        → result ≡ R.note_at s kind place }
{
    named_are_there();
    match tell_entry(heap, memory, address_at(heap, memory, head, place)) {
        Some(told) => Some((told.guid, told.number as u32)),
        None => None,
    }
}

/// The GUID and the entry of the notification at a place of its kind's list, from 0. None past the last.
pub fn note_at(
    heap: &Heap,
    memory: &PhysMem,
    heads: &Heads,
    kind: DescKind,
    place: u32,
) -> Option<(Guid, u32)>
    requires { (s : StoreState) × IsLinked heap.now memory.now heads.now s }
    ensures { (s : StoreState) → IsLinked heap.now memory.now heads.now s → result ≡ R.note_at s kind place }
{
    match kind {
        DescKind::Ppi => None,
        DescKind::Callback => note_from(heap, memory, heads.note, place),
        DescKind::Dispatch => note_from(heap, memory, heads.later, place),
    }
}

/// The PPI's GUID and the notification's entry of the queued pair at a place, from 0. None past the last.
pub fn pending_at(heap: &Heap, memory: &PhysMem, heads: &Heads, place: u32) -> Option<(Guid, u32)>
    requires { (s : StoreState) × IsLinked heap.now memory.now heads.now s }
    ensures { (s : StoreState) → IsLinked heap.now memory.now heads.now s → result ≡ R.pending_at s place }
{
    named_are_there();
    match tell_pair(heap, memory, address_at(heap, memory, heads.queue, place)) {
        Some(told) => Some((told.guid, told.number as u32)),
        None => None,
    }
}

// The address of the node after the one at this offset, or of the first if no node is given.
fn node_behind(
    heap: &Heap,
    memory: &PhysMem,
    heads: &Heads,
    list: EntryList,
    node: Option<u64>,
) -> u64
    requires { (s : StoreState) × IsLinked heap.now memory.now heads.now s × IsNodeIn list node s }
    ensures { (s : StoreState) → IsLinked heap.now memory.now heads.now s → IsNodeIn list node s → IsBehind s list node result }
{
    nodes_read();
    match node {
        Some(node) => word_in(&heap.bytes(memory), node as usize),
        None => heads.first(list),
    }
}

/// The entry of a list after the one with this node, or the first entry if no node is given. None after the last.
pub fn entry_behind(
    heap: &Heap,
    memory: &PhysMem,
    heads: &Heads,
    list: EntryList,
    node: Option<u64>,
) -> Option<EntryTold>
    requires { (s : StoreState) × IsLinked heap.now memory.now heads.now s × IsNodeIn list node s }
    ensures { (s : StoreState) → IsLinked heap.now memory.now heads.now s → IsNodeIn list node s
        → result ≡ R.entry_behind s list node }
{
    let at = node_behind(heap, memory, heads, list, node);
    match list {
        EntryList::Pendings => tell_pair(heap, memory, at),
        EntryList::Ppis => tell_entry(heap, memory, at),
        EntryList::Callbacks => tell_entry(heap, memory, at),
        EntryList::Dispatches => tell_entry(heap, memory, at),
    }
}
