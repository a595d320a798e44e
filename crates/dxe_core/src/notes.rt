// The notifications of protocols, in the order of their registration, and the places of those of each protocol.
ghost use Rattle.std.specs.Prelude.{◌≡◌, ◌∷◌, ◌++◌, [], OnOk, OnErr, length, option_copied, slice_get};
ghost use Rattle.guid_lists.specs.Places.{IsFirstFrom};
ghost use Rattle.dxe_core.specs.Notes.{is_note};

use boot_model::ProtocolNote;
use guid_lists::GuidLists;
use pi_base::{Guid, OutOfMemory, Seq};
use std::alloc::Global;
use std::marker::Model;

/// The registered notifications. Contracts see the list of them.
#[derive(Drop)]
pub(crate) struct Notes {
    list: Seq<ProtocolNote>,
    places: GuidLists,
}

impl Model for Notes {
    ghost use Rattle.std.specs.Prelude.{List, length};
    ghost use Rattle.boot_model.specs.declared.driver.ProtocolNote.{ProtocolNote as OfNote};
    ghost use Rattle.guid_lists.specs.Places.{AreAt};
    ghost use Rattle.dxe_core.specs.Notes.{is_note};

    ghost Value = { List OfNote };

    ghost view = { λ n. n.list };

    ghost invariant = { λ n. AreAt n.places (is_note n.list) (length n.list) };
}

impl Notes {
    /// No notifications. It allocates nothing.
    pub(crate) fn new(alloc: Global) -> Notes
        ensures { result ≡ [] }
    {
        Notes {
            list: Seq::new(alloc),
            places: GuidLists::new(alloc),
        }
    }

    /// How many there are.
    pub(crate) fn len(&self) -> usize
        ensures { result ≡ length self.now }
    {
        self.list.len()
    }

    /// The notification in a place.
    pub(crate) fn get(&self, place: u32) -> Option<&ProtocolNote>
        ensures { option_copied result ≡ slice_get self.now place }
    {
        self.list.as_slice().get(place as usize)
    }

    /// The place of the first one of a protocol from a place on.
    pub(crate) fn next(&self, guid: &Guid, from: u32) -> Option<u32>
        ensures { IsFirstFrom (is_note self.now guid.now) 0 from result }
    {
        self.places.next(guid, from)
    }

    /// Adds a notification after the others. If memory runs out, they stay as they were.
    pub(crate) fn push(&mut self, note: ProtocolNote) -> Result<(), OutOfMemory>
        ensures ok { OnOk result (self.new ≡ self.old ++ note ∷ []) }
        ensures err { OnErr result (self.new ≡ self.old) }
    {
        let len = self.list.len();
        let Ok(place) = u32::try_from(len) else {
            return Err(OutOfMemory);
        };
        self.list.push(note)?;
        match self.places.add(note.guid, place) {
            Ok(()) => Ok(()),
            Err(OutOfMemory) => {
                self.list.truncate(len);
                Err(OutOfMemory)
            }
        }
    }
}
