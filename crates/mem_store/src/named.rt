// The nodes of PPIs, found by the descriptors that they name. PI 1.8, volume 1, `ReInstallPpi()`.
ghost use Rattle.std.specs.Prelude.{◌≡◌, ◌+◌, ◌<◌, ◌^◌, [], true, IfOk, length};
ghost use Rattle.store_model.specs.{Service.OfEach, Service.Present, StoreState.StoreState};
ghost use Rattle.pei_heap.specs.Replaced.{IsFound};
ghost use Rattle.heap_store.specs.HeapState as H;
ghost use Rattle.mem_store.specs.Nodes.{AreKnown, Begins, CanLearn, NamesOther, key_of, last_node, named_rows};

use crate::guid_index::{GuidIndex, Indexed};
use heap_store::HeapStore;
use pei_heap::links::PpiFound;
use pi_base::{GUID_LEN, Guid, OutOfMemory, put_u64};
use std::alloc::Global;
use store_laws::{bodies_are_inside, entries_are_told, states_fit};
use store_model::{Desc, EntryList};

/// The nodes of a store's first PPIs, each found by the descriptor that it names. They are learned when a reinstall asks for one.
#[derive(Drop)]
pub struct Named {
    // The nodes in the order of the PPIs, each under `key` of its descriptor.
    pub(crate) nodes: GuidIndex,
    // Whether they say what the list says. Where another descriptor had no room, they say nothing from then on.
    pub(crate) right: bool,
}

// The offset of a descriptor, as that by which its PPIs are found.
fn key(offset: u64) -> Guid
    ensures key { result ≡ key_of offset }
    ensures fits { offset < 2 ^ 64 }
{
    let mut bytes = [0u8; GUID_LEN];
    put_u64(bytes.as_mut_slice(), 0, offset);
    Guid(bytes)
}

impl Named {
    // None is known yet.
    pub(crate) fn new(alloc: Global) -> Result<Named, OutOfMemory>
        ensures { IfOk result (λ named. named.nodes ≡ []) }
    {
        match GuidIndex::new(alloc, 0) {
            Ok(nodes) => Ok(Named { nodes, right: true }),
            Err(OutOfMemory) => Err(OutOfMemory),
        }
    }

    // The last node that is known.
    fn last(&self) -> Option<u64>
        ensures { result ≡ last_node self.now.nodes }
    {
        match self.nodes.get(self.nodes.len().saturating_sub(1)) {
            Some(row) => Some(row.at),
            None => None,
        }
    }

    // Learns the node of one PPI more. False where it has no room, or there is none.
    fn learn_one(&mut self, ppis: &GuidIndex, behind: &HeapStore) -> bool
        requires { Present (H.StandsFor behind.now) (CanLearn self.old.nodes ppis.now) }
        ensures known { OfEach (H.StandsFor behind.now) (CanLearn self.old.nodes ppis.now) (λ s. Begins self.new.nodes (named_rows s)) }
        ensures right { self.new.right ≡ self.old.right }
        ensures more { result ≡ true → length self.new.nodes ≡ length self.old.nodes + 1 }
    {
        entries_are_told();
        let Some(row) = ppis.get(self.nodes.len()) else {
            return false;
        };
        let Some(told) = behind.tell_behind(EntryList::Ppis, self.last()) else {
            return false;
        };
        self.nodes.push(Indexed {
            guid: key(row.at),
            at: told.node,
        })
    }

    // Learns the nodes of the PPIs that came since, whose rows stand in `ppis`, as far as there is room.
    pub(crate) fn learn(&mut self, ppis: &GuidIndex, behind: &HeapStore)
        requires { Present (H.StandsFor behind.now) (CanLearn self.old.nodes ppis.now) }
        ensures known { OfEach (H.StandsFor behind.now) (CanLearn self.old.nodes ppis.now) (λ s. Begins self.new.nodes (named_rows s)) }
        ensures right { self.new.right ≡ self.old.right }
    {
        'ppis: while self.nodes.len() < ppis.len() {
            if !self.learn_one(ppis, behind) {
                return;
            }
        }
    }

    // The first PPI that names a descriptor, where all are known.
    pub(crate) fn first(&self, d: Desc) -> Option<PpiFound>
        requires { (s : StoreState) × AreKnown self.now.nodes s }
        ensures { (s : StoreState) → AreKnown self.now.nodes s → IsFound s d result }
    {
        bodies_are_inside();
        states_fit();
        let place = match self.nodes.next(&key(d.offset), 0) {
            Some(place) => place,
            None => return None,
        };
        match self.nodes.get(place as usize) {
            Some(row) => Some(PpiFound {
                place,
                node: row.at,
            }),
            None => unreachable!(),
        }
    }

    // The PPI in a place names another descriptor.
    pub(crate) fn name_other(&mut self, place: u32, at: u64)
        ensures { NamesOther self.old self.new place at }
    {
        if !self.right {
            return;
        }
        let row = match self.nodes.get(place as usize) {
            Some(row) => row,
            None => return,
        };
        self.right = self.nodes.replace(
            place,
            Indexed {
                guid: key(at),
                at: row.at,
            },
        );
    }
}
