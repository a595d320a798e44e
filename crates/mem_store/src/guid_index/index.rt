// Entries in order, found by their GUID.
ghost use Rattle.std.specs.Prelude.{◌≡◌, ◌↔◌, IsTrue, [], length, slice_get, IfOk};

use guid_lists::GuidLists;
use pi_base::{Guid, OutOfMemory, Seq};
use std::alloc::Global;
use std::marker::Model;

/// An entry: its GUID, and where it stands.
#[derive(Clone, Copy)]
pub struct Indexed {
    pub guid: Guid,
    /// An offset, of which the index knows nothing.
    pub at: u64,
}

/// Entries in order. Contracts see the list of them.
#[derive(Drop)]
pub struct GuidIndex {
    pub(crate) entries: Seq<Indexed>,
    // Where the entries of each GUID stand.
    pub(crate) places: GuidLists,
}

impl Model for GuidIndex {
    ghost use Rattle.std.specs.Prelude.{List, length};
    ghost use Rattle.guid_lists.specs.Places.{AreAt};
    ghost use Rattle.mem_store.specs.declared.guid_index.index.Indexed.{Indexed as OfIndexed};
    ghost use Rattle.mem_store.specs.Entries.{has_at};

    ghost Value = { List OfIndexed };

    ghost view = { λ x. x.entries };

    ghost invariant = { λ x. AreAt x.places (has_at x.entries) (length x.entries) };
}

impl GuidIndex {
    /// No entries. Room for `most` of them is reserved, which costs nothing until it is written; where more come, or a GUID, more is taken.
    pub fn new(alloc: Global, most: usize) -> Result<GuidIndex, OutOfMemory>
        ensures { IfOk result (λ index. index ≡ []) }
    {
        let entries = match Vec::with_capacity(alloc, most) {
            Ok(entries) => Seq::from_vec(entries),
            Err(_) => return Err(OutOfMemory),
        };
        Ok(GuidIndex {
            entries,
            places: GuidLists::new(alloc),
        })
    }

    /// How many entries there are.
    pub fn len(&self) -> usize
        ensures { result ≡ length self.now }
    {
        self.entries.len()
    }

    /// Whether there is no entry.
    pub fn is_empty(&self) -> bool
        ensures { IsTrue result ↔ (self.now ≡ []) }
    {
        self.entries.is_empty()
    }

    /// The entry in a place, from 0. None past the last.
    pub fn get(&self, place: usize) -> Option<Indexed>
        ensures { result ≡ slice_get self.now place }
    {
        self.entries.as_slice().get(place).copied()
    }
}
