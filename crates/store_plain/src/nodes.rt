// Nodes, entries and queued pairs are added, for which there is room and memory.
ghost use Rattle.std.specs.Prelude.{◌≡◌, ◌≤◌, ◌<◌, ◌+◌, ◌*◌, nat_le, length, fold, OnOk, IfOk, vec_len, vec_capacity, ℕ};
ghost use Rattle.store_model.specs.StoreState.{free};
ghost use Rattle.store_model.specs.Service.Install.{node_need, with_node, with_ppi, with_pending};

use crate::length::HEADER_LEN;
use crate::plain_hob::{PlainBody, PlainHob};
use crate::store::PlainStore;
use hob_codec::kind::POOL;
use pi_base::OutOfMemory;
use store_model::{Desc, Entry, NODE_LEN, Pending, Sweep};

// What a node takes.
const NODE_NEED: u64 = NODE_LEN + HEADER_LEN;

// The most places that a sweep can name.
const MOST_PLACES: usize = u32::MAX as usize;

// A sweep from the first of its pairs on. None if a place is past what a sweep can name.
pub(crate) fn sweep_from(
    ppi_at: usize,
    ppi_to: usize,
    note_from: usize,
    note_to: usize,
) -> Result<Sweep, OutOfMemory>
    requires ppis { ppi_at ≤ ppi_to }
    requires notes { note_from ≤ note_to }
    ensures { IfOk result (λ sweep. sweep
        ≡ record { ppi_to = ppi_to; note_from = note_from; note_to = note_to; ppi_at = ppi_at; note_at = note_from }) }
{
    if ppi_to > MOST_PLACES || note_to > MOST_PLACES {
        return Err(OutOfMemory);
    }
    Ok(Sweep {
        ppi_to: ppi_to as u32,
        note_from: note_from as u32,
        note_to: note_to as u32,
        ppi_at: ppi_at as u32,
        note_at: note_from as u32,
    })
}

impl PlainStore {
    ghost use Rattle.store_plain.specs.PlainState.{state_of};
    ghost use Rattle.store_plain.specs.Nodes.{HasNodes, HasEntries};

    // Whether there is room for the nodes of so many entries and pairs.
    pub(crate) fn has_room(&self, entries: usize, pairs: usize) -> bool
        ensures { result ≡ nat_le (node_need entries + node_need pairs) (free (state_of self.now)) }
    {
        let left = self.free() / NODE_NEED;
        entries as u64 <= left && pairs as u64 <= left - entries as u64
    }

    // Takes the memory for so many nodes and queued pairs.
    fn reserve_nodes(&mut self, nodes: usize, pairs: usize) -> Result<(), OutOfMemory>
        requires { 40 * nodes ≤ free (state_of self.old) }
        ensures state { state_of self.new ≡ state_of self.old }
        ensures nodes { OnOk result (HasNodes self.new nodes) }
        ensures pairs { OnOk result (vec_len self.new.pendings + pairs ≤ vec_capacity self.new.pendings) }
        ensures ppis { self.new.ppis ≡ self.old.ppis }
        ensures callbacks { self.new.callbacks ≡ self.old.callbacks }
        ensures dispatches { self.new.dispatches ≡ self.old.dispatches }
    {
        self.hobs.reserve(nodes).map_err(|_| OutOfMemory)?;
        self.pendings.reserve(pairs).map_err(|_| OutOfMemory)
    }

    // Takes the memory for so many entries in each list.
    fn reserve_entries(&mut self, entries: usize) -> Result<(), OutOfMemory>
        ensures state { state_of self.new ≡ state_of self.old }
        ensures entries { OnOk result (HasEntries self.new entries) }
    {
        self.ppis.reserve(entries).map_err(|_| OutOfMemory)?;
        self.callbacks.reserve(entries).map_err(|_| OutOfMemory)?;
        self.dispatches.reserve(entries).map_err(|_| OutOfMemory)
    }

    // Takes the memory for the nodes of so many entries and pairs.
    pub(crate) fn reserve(&mut self, entries: usize, pairs: usize) -> Result<(), OutOfMemory>
        requires { node_need entries + node_need pairs ≤ free (state_of self.old) }
        ensures state { state_of self.new ≡ state_of self.old }
        ensures nodes { OnOk result (HasNodes self.new (entries + pairs)) }
        ensures entries { OnOk result (HasEntries self.new entries) }
        ensures pairs { OnOk result (vec_len self.new.pendings + pairs ≤ vec_capacity self.new.pendings) }
    {
        self.reserve_entries(entries)?;
        self.reserve_nodes(entries + pairs, pairs)
    }

    // Adds a node, and answers its place.
    pub(crate) fn push_node(&mut self) -> u64
        requires { HasNodes self.old 1 }
        ensures place { result ≡ self.old.end + 8 }
        ensures state { state_of self.new ≡ with_node (state_of self.old) }
        ensures nodes { (n : ℕ) → HasNodes self.old (n + 1) → HasNodes self.new n }
        ensures ppis { self.new.ppis ≡ self.old.ppis }
        ensures callbacks { self.new.callbacks ≡ self.old.callbacks }
        ensures dispatches { self.new.dispatches ≡ self.old.dispatches }
        ensures pendings { self.new.pendings ≡ self.old.pendings }
    {
        let place = self.end + HEADER_LEN;
        self.hobs
            .push_reserved(PlainHob::new(POOL, PlainBody::Node));
        self.end += NODE_NEED;
        place
    }

    // Adds a queued pair.
    fn push_pending(&mut self, pair: (u64, u64), by: u32)
        requires nodes { HasNodes self.old 1 }
        requires memory { vec_len self.old.pendings < vec_capacity self.old.pendings }
        ensures state { state_of self.new ≡ with_pending by (state_of self.old) pair }
        ensures nodes { (n : ℕ) → HasNodes self.old (n + 1) → HasNodes self.new n }
        ensures len { vec_len self.new.pendings ≡ vec_len self.old.pendings + 1 }
        ensures capacity { vec_capacity self.new.pendings ≡ vec_capacity self.old.pendings }
    {
        let node = self.push_node();
        self.pendings.push_reserved(Pending {
            node,
            descriptor: pair.1,
            ppi: pair.0,
            by,
        });
    }

    // Adds queued pairs.
    pub(crate) fn add_pendings(&mut self, pairs: &[(u64, u64)], by: u32)
        requires nodes { HasNodes self.old (length pairs.now) }
        requires memory { vec_len self.old.pendings + length pairs.now ≤ vec_capacity self.old.pendings }
        ensures { state_of self.new ≡ fold (with_pending by) (state_of self.old) pairs.now }
    {
        'pairs: for pair in pairs {
            self.push_pending(*pair, by);
        }
    }

    // Adds a PPI.
    fn push_ppi(&mut self, d: Desc, by: u32)
        requires nodes { HasNodes self.old 1 }
        requires memory { vec_len self.old.ppis < vec_capacity self.old.ppis }
        ensures state { state_of self.new ≡ with_ppi by (state_of self.old) d }
        ensures nodes { (n : ℕ) → HasNodes self.old (n + 1) → HasNodes self.new n }
        ensures len { vec_len self.new.ppis ≡ vec_len self.old.ppis + 1 }
        ensures capacity { vec_capacity self.new.ppis ≡ vec_capacity self.old.ppis }
        ensures pendings { self.new.pendings ≡ self.old.pendings }
    {
        let node = self.push_node();
        self.ppis.push_reserved(Entry {
            node,
            descriptor: d.offset,
            by,
        });
    }

    // Adds PPIs.
    pub(crate) fn add_ppis(&mut self, list: &[Desc], by: u32)
        requires nodes { HasNodes self.old (length list.now) }
        requires memory { HasEntries self.old (length list.now) }
        ensures state { state_of self.new ≡ fold (with_ppi by) (state_of self.old) list.now }
        ensures nodes { (n : ℕ) → HasNodes self.old (length list.now + n) → HasNodes self.new n }
        ensures pendings { self.new.pendings ≡ self.old.pendings }
    {
        'descs: for d in list {
            self.push_ppi(*d, by);
        }
    }
}
