// The entries of a GUID are counted and found.
ghost use Rattle.std.specs.Prelude.{◌≡◌, length, slice_get};
ghost use Rattle.std.specs.List.{list_any};
ghost use Rattle.guid_lists.specs.Places.{IsFirstFrom};
ghost use Rattle.mem_store.specs.Entries.{entries_of, has_at, has_guid};

use crate::guid_index::index::{GuidIndex, Indexed};
use pi_base::Guid;

impl GuidIndex {
    /// Whether an entry has a GUID.
    pub fn contains(&self, guid: &Guid) -> bool
        ensures { result ≡ list_any (has_guid guid.now) self.now }
    {
        self.count(guid) > 0
    }

    /// How many entries have a GUID.
    pub fn count(&self, guid: &Guid) -> usize
        ensures { result ≡ length (entries_of self.now guid.now) }
    {
        self.places.of(guid).len()
    }

    /// The place of the first entry with a GUID, from a place on. None where there is none.
    pub fn next(&self, guid: &Guid, from: u32) -> Option<u32>
        ensures { IsFirstFrom (has_at self.now guid.now) 0 from result }
    {
        self.places.next(guid, from)
    }

    /// The n-th entry with a GUID, from 0. None past the last of them.
    pub fn nth(&self, guid: &Guid, n: usize) -> Option<Indexed>
        ensures { result ≡ slice_get (entries_of self.now guid.now) n }
    {
        match self.places.nth(guid, n) {
            Some(place) => self.get(place as usize),
            None => None,
        }
    }
}
