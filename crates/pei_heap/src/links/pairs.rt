// The pairs of PPIs and dispatch notifications that a call queues.
ghost use Rattle.std.specs.Prelude.{◌≡◌, ◌≤◌, ◌∷◌, [], ◌&&◌, not, true, if◌then◌else◌, length};
ghost use Rattle.pi_base.specs.Guids as G;
ghost use Rattle.store_model.specs.{StoreState.StoreState, StateFacts.IsDesc, StoreCall.AreDescs};
ghost use Rattle.store_model.specs.declared.store_handle.EntryList.TheVariants.{Pendings};
ghost use Rattle.store_model.specs.Service.Descriptor.{descriptors, guid_at, is_callback, kind_at};
ghost use Rattle.store_model.specs.Service.Install.{install_pairs, row_of};
ghost use Rattle.store_model.specs.Service.Notify.{new_dispatches, notify_pairs};
ghost use Rattle.pei_heap.specs.{HeapMemory.IsHeapOf, Linked.IsLinked, NewEntry.IsReady};
ghost use Rattle.pei_heap.specs.Pairs.{CanQueueAll, CanQueueNew, CanQueueNewRow, CanQueueRow, PairsStay, queued};

use crate::Heap;
use crate::links::descriptor::{guid_of, kind_of};
use crate::links::entry::NewEntry;
use crate::links::guid::same_guid;
use crate::links::heads::Heads;
use crate::links::pushing::push;
use crate::links::walk::entry_from;
use phys_mem::PhysMem;
use pi_base::Guid;
use store_laws::heap::nodes_read;
use store_model::{Desc, DescKind, EntryList};

// Whether a notification has the GUID.
pub(crate) fn is_of(heap: &Heap, memory: &PhysMem, guid: &Guid, note: Desc) -> bool
    requires { (s : StoreState) × IsHeapOf heap.now memory.now s × IsDesc s note }
    ensures { (s : StoreState) → IsHeapOf heap.now memory.now s → IsDesc s note
        → result ≡ G.same_guid guid.now (guid_at s note.offset) }
{
    same_guid(guid, &guid_of(heap, memory, note))
}

// 1 for a pair that is due, else 0.
fn one_if(due: bool) -> u64
    ensures { result ≡ (if due then 1 else 0) }
{
    if due { 1 } else { 0 }
}

// How many dispatch notifications have the GUID of a PPI.
fn count_row(heap: &Heap, memory: &PhysMem, heads: &Heads, ppi: Desc) -> u64
    requires { (s : StoreState) × IsLinked heap.now memory.now heads.now s × IsDesc s ppi }
    ensures count { (s : StoreState) → IsLinked heap.now memory.now heads.now s → IsDesc s ppi
        → result ≡ length (row_of s ppi.offset (descriptors s.dispatches)) }
    ensures few { result ≤ heap.now.span.len }
{
    nodes_read();
    let guid = guid_of(heap, memory, ppi);
    let mut count = 0;
    let mut at = heads.later;
    'notes: for _place in 0..heap.span.len {
        let met = match entry_from(heap, memory, at) {
            Some(met) => met,
            None => return count,
        };
        let offset = met.entry.descriptor;
        count += one_if(is_of(heap, memory, &guid, Desc { offset }));
        at = met.next;
    }
    count
}

/// How many pairs there are of these PPIs with all dispatch notifications.
pub fn count_pairs(heap: &Heap, memory: &PhysMem, heads: &Heads, list: &[Desc]) -> u64
    requires state { (s : StoreState) × IsLinked heap.now memory.now heads.now s × AreDescs list.now s }
    requires few { length list.now ≤ 8 }
    ensures { (s : StoreState) → IsLinked heap.now memory.now heads.now s → AreDescs list.now s
        → result ≡ length (install_pairs s list.now) }
{
    let mut count = 0;
    'descs: for d in list {
        count += count_row(heap, memory, heads, *d);
    }
    count
}

// Queues a pair, if it is due.
fn push_if(heap: &Heap, memory: &mut PhysMem, heads: &mut Heads, due: bool, pair: NewEntry)
    requires { (s : StoreState) × IsLinked heap.now memory.old heads.old s × (due ≡ true → IsReady Pendings pair s) }
    ensures { (s : StoreState) → IsLinked heap.now memory.old heads.old s → (due ≡ true → IsReady Pendings pair s)
        → IsLinked heap.now memory.new heads.new (queued pair.by s (if due then (pair.ppi, pair.descriptor) ∷ [] else [])) }
{
    if due {
        push(heap, memory, heads, EntryList::Pendings, pair);
    }
}

// Queues the pairs of one PPI with all dispatch notifications.
fn push_row(heap: &Heap, memory: &mut PhysMem, heads: &mut Heads, ppi: Desc, by: u32)
    requires { (s : StoreState) × IsLinked heap.now memory.old heads.old s × CanQueueRow s ppi (descriptors s.dispatches) }
    ensures { (s : StoreState) → IsLinked heap.now memory.old heads.old s → CanQueueRow s ppi (descriptors s.dispatches)
        → IsLinked heap.now memory.new heads.new (queued by s (row_of s ppi.offset (descriptors s.dispatches))) }
{
    nodes_read();
    let guid = guid_of(heap, memory, ppi);
    let mut at = heads.later;
    'notes: for _place in 0..heap.span.len {
        let met = match entry_from(heap, memory, at) {
            Some(met) => met,
            None => return,
        };
        let note = Desc {
            offset: met.entry.descriptor,
        };
        let due = is_of(heap, memory, &guid, note);
        let pair = NewEntry {
            descriptor: note.offset,
            ppi: ppi.offset,
            by,
        };
        push_if(heap, memory, heads, due, pair);
        at = met.next;
    }
}

/// Queues the pairs of these PPIs with all dispatch notifications, `count` in all, in order of PPI and then of registration. If there are none, no list is
/// walked.
pub fn push_pairs(
    heap: &Heap,
    memory: &mut PhysMem,
    heads: &mut Heads,
    list: &[Desc],
    by: u32,
    count: u64,
)
    requires { (s : StoreState) × IsLinked heap.now memory.old heads.old s × CanQueueAll s list.now count }
    ensures { (s : StoreState) → IsLinked heap.now memory.old heads.old s → CanQueueAll s list.now count
        → IsLinked heap.now memory.new heads.new (queued by s (install_pairs s list.now)) }
{
    if count == 0 {
        return;
    }
    'descs: for d in list {
        push_row(heap, memory, heads, *d, by);
    }
}

// Whether a notification is a dispatch notification of the GUID.
fn is_due(heap: &Heap, memory: &PhysMem, guid: &Guid, note: Desc) -> bool
    requires { (s : StoreState) × IsHeapOf heap.now memory.now s × IsDesc s note }
    ensures { (s : StoreState) → IsHeapOf heap.now memory.now s → IsDesc s note
        → result ≡ (not (is_callback (kind_at s note.offset)) && G.same_guid guid.now (guid_at s note.offset)) }
{
    kind_of(heap, memory, note) != DescKind::Callback && is_of(heap, memory, guid, note)
}

// How many of these are dispatch notifications of the GUID of a PPI.
fn count_new_row(heap: &Heap, memory: &PhysMem, ppi: Desc, list: &[Desc]) -> u64
    requires state { (s : StoreState) × IsHeapOf heap.now memory.now s × IsDesc s ppi × AreDescs list.now s }
    ensures count { (s : StoreState) → IsHeapOf heap.now memory.now s → IsDesc s ppi → AreDescs list.now s
        → result ≡ length (row_of s ppi.offset (new_dispatches s list.now)) }
    ensures few { result ≤ length list.now }
{
    let guid = guid_of(heap, memory, ppi);
    let mut count = 0;
    'descs: for d in list {
        count += one_if(is_due(heap, memory, &guid, *d));
    }
    count
}

/// How many pairs there are of all PPIs with the dispatch notifications among these.
pub fn count_new_pairs(heap: &Heap, memory: &PhysMem, heads: &Heads, list: &[Desc]) -> u64
    requires state { (s : StoreState) × IsLinked heap.now memory.now heads.now s × AreDescs list.now s }
    requires few { length list.now ≤ 8 }
    ensures { (s : StoreState) → IsLinked heap.now memory.now heads.now s → AreDescs list.now s
        → result ≡ length (notify_pairs s list.now) }
{
    let mut count = 0;
    let mut at = heads.ppi;
    'ppis: for _place in 0..heads.ppis {
        let met = match entry_from(heap, memory, at) {
            Some(met) => met,
            None => return count,
        };
        let offset = met.entry.descriptor;
        count += count_new_row(heap, memory, Desc { offset }, list);
        at = met.next;
    }
    count
}

// Queues the pairs of one PPI with the dispatch notifications among these.
fn push_new_row(
    heap: &Heap,
    memory: &mut PhysMem,
    heads: &mut Heads,
    ppi: Desc,
    list: &[Desc],
    by: u32,
)
    requires { (s : StoreState) × IsLinked heap.now memory.old heads.old s × CanQueueNewRow s ppi list.now }
    ensures { (s : StoreState) → IsLinked heap.now memory.old heads.old s → CanQueueNewRow s ppi list.now
        → IsLinked heap.now memory.new heads.new (queued by s (row_of s ppi.offset (new_dispatches s list.now))) }
{
    let guid = guid_of(heap, memory, ppi);
    'descs: for d in list {
        let due = is_due(heap, memory, &guid, *d);
        let pair = NewEntry {
            descriptor: d.offset,
            ppi: ppi.offset,
            by,
        };
        push_if(heap, memory, heads, due, pair);
    }
}

/// Queues the pairs of all PPIs with the dispatch notifications among these, `count` in all, in order of PPI and then of the list. If there are none, no list
/// is walked.
pub fn push_new_pairs(
    heap: &Heap,
    memory: &mut PhysMem,
    heads: &mut Heads,
    list: &[Desc],
    by: u32,
    count: u64,
)
    requires { (s : StoreState) × IsLinked heap.now memory.old heads.old s × CanQueueNew s list.now count }
    ensures { (s : StoreState) → IsLinked heap.now memory.old heads.old s → CanQueueNew s list.now count
        → IsLinked heap.now memory.new heads.new (queued by s (notify_pairs s list.now)) }
{
    if count == 0 {
        return;
    }
    let mut at = heads.ppi;
    'ppis: for _place in 0..heads.ppis {
        let met = match entry_from(heap, memory, at) {
            Some(met) => met,
            None => return,
        };
        let offset = met.entry.descriptor;
        push_new_row(heap, memory, heads, Desc { offset }, list, by);
        at = met.next;
    }
}

/// The pairs of a call are the same before and after its entries are made.
pub fn pairs_stay()
    ensures { PairsStay }
{}
