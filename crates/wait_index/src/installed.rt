// The GUIDs that expressions ask for, and which of them are installed.
ghost use Rattle.std.specs.Prelude.{◌≡◌, ◌<◌, length, slice_set};
ghost use Rattle.std.specs.List.{list_all};
ghost use Rattle.wait_index.specs.PlaceFlags.{flag};

use crate::search::flag;
use depex_code::GuidSet;
use pi_base::{Guid, GuidMap, Seq};

/// The GUIDs that expressions push. Each has a slot, which says whether the GUID is installed.
#[derive(Drop)]
pub struct Installed {
    pub(crate) slots: GuidMap<usize>,
    pub(crate) there: Seq<bool>,
    /// In DXE the slots of the architectural protocols.
    pub(crate) protocols: Seq<usize>,
}

impl GuidSet for Installed {
    ghost use Rattle.wait_index.specs.Installed.{is_there};

    ghost has_guid = { λ s guid. is_there s guid };

    ghost in_order = { λ _. Unit {0} };

    fn has(&self, guid: &Guid) -> bool {
        match self.slots.get(guid) {
            Some(slot) => self.says(slot),
            None => false,
        }
    }
}

impl Installed {
    /// Whether a slot says that its GUID is installed.
    pub(crate) fn says(&self, slot: usize) -> bool
        ensures { result ≡ flag self.now.there slot }
    {
        flag(self.there.as_slice(), slot)
    }

    /// A slot says so from now on.
    pub(crate) fn put(&mut self, slot: usize, there: bool)
        requires { slot < length self.old.there }
        ensures there { self.new.there ≡ slice_set self.old.there slot there }
        ensures slots { self.new.slots ≡ self.old.slots }
        ensures protocols { self.new.protocols ≡ self.old.protocols }
    {
        self.there.set(slot, there);
    }

    /// Whether all architectural protocols are installed.
    pub(crate) fn has_all(&self) -> bool
        ensures { result ≡ list_all (flag self.now.there) self.now.protocols }
    {
        'protocols: for slot in self.protocols.as_slice() {
            if !self.says(*slot) {
                return false;
            }
        }
        true
    }
}
