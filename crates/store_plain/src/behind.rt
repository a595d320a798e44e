// The entries of a list, read one after the other by their nodes.
ghost use Rattle.std.specs.Prelude.{◌≡◌, drop, map, slice_get};
ghost use Rattle.pi_base.specs.Lists.{Each};
ghost use Rattle.store_model.specs.{StateFacts.IsStoreState, StateFacts.IsDesc, StoreState.StoreState};
ghost use Rattle.store_model.specs.Service.Reading.{descriptor, entry_behind, entry_told, pending_told, told_behind};
ghost use Rattle.store_plain.specs.Behind.{IsNamed, IsPpiNamed};

use crate::store::PlainStore;
use pi_base::Guid;
use store_model::{Desc, Entry, EntryList, EntryTold, Pending};

// The place after the entry with this node, or 0 if no node is given.
fn place_behind(entries: &[Entry], node: Option<u64>) -> usize
    ensures { (s : StoreState) → drop result (map (entry_told s) entries.now) ≡ told_behind node (map (entry_told s) entries.now) }
{
    let Some(node) = node else {
        return 0;
    };
    'entries: for place in 0..entries.len() {
        if entries[place].node == node {
            return place + 1;
        }
    }
    entries.len()
}

// The place after the queued pair with this node, or 0 if no node is given.
fn pair_behind(pendings: &[Pending], node: Option<u64>) -> usize
    ensures { (s : StoreState) → drop result (map (pending_told s) pendings.now) ≡ told_behind node (map (pending_told s) pendings.now) }
{
    let Some(node) = node else {
        return 0;
    };
    'pendings: for place in 0..pendings.len() {
        if pendings[place].node == node {
            return place + 1;
        }
    }
    pendings.len()
}

impl PlainStore {
    ghost use Rattle.store_plain.specs.PlainState.{state_of};

    // GUID and number of a descriptor.
    pub(crate) fn tell_descriptor(&self, d: Desc) -> (Guid, u64)
        requires { IsDesc (state_of self.now) d }
        ensures { result ≡ descriptor (state_of self.now) d }
    {
        (self.guid_at(d.offset), self.number_at(d.offset))
    }

    // What can be read of the entry at a place.
    fn tell_entry(&self, entries: &[Entry], place: usize) -> Option<EntryTold>
        requires { Each (IsNamed (state_of self.now)) entries.now }
        ensures { result ≡ slice_get (map (entry_told (state_of self.now)) entries.now) place }
    {
        let entry = entries.get(place).copied()?;
        Some(EntryTold {
            node: entry.node,
            guid: self.guid_at(entry.descriptor),
            number: self.number_at(entry.descriptor),
            by: entry.by,
        })
    }

    // What can be read of the queued pair at a place.
    fn tell_pair(&self, pendings: &[Pending], place: usize) -> Option<EntryTold>
        requires { Each (IsPpiNamed (state_of self.now)) pendings.now }
        ensures { result ≡ slice_get (map (pending_told (state_of self.now)) pendings.now) place }
    {
        let pending = pendings.get(place).copied()?;
        Some(EntryTold {
            node: pending.node,
            guid: self.guid_at(pending.ppi),
            number: self.number_at(pending.descriptor),
            by: pending.by,
        })
    }

    // What can be read of the entry after a node.
    fn tell_entry_behind(&self, entries: &[Entry], node: Option<u64>) -> Option<EntryTold>
        requires { Each (IsNamed (state_of self.now)) entries.now }
        ensures { result ≡ slice_get (told_behind node (map (entry_told (state_of self.now)) entries.now)) 0 }
    {
        self.tell_entry(entries, place_behind(entries, node))
    }

    // What can be read of the queued pair after a node.
    fn tell_pair_behind(&self, node: Option<u64>) -> Option<EntryTold>
        requires { Each (IsPpiNamed (state_of self.now)) self.now.pendings.items }
        ensures { result ≡ slice_get (told_behind node (map (pending_told (state_of self.now)) self.now.pendings.items)) 0 }
    {
        let pendings = self.pendings.as_slice();
        self.tell_pair(pendings, pair_behind(pendings, node))
    }

    // What can be read of the entry of a list after a node.
    pub(crate) fn tell_behind(&self, list: EntryList, node: Option<u64>) -> Option<EntryTold>
        requires { IsStoreState (state_of self.now) }
        ensures { result ≡ entry_behind (state_of self.now) list node }
    {
        match list {
            EntryList::Ppis => self.tell_entry_behind(self.ppis.as_slice(), node),
            EntryList::Callbacks => self.tell_entry_behind(self.callbacks.as_slice(), node),
            EntryList::Dispatches => self.tell_entry_behind(self.dispatches.as_slice(), node),
            EntryList::Pendings => self.tell_pair_behind(node),
        }
    }
}
