// An entry comes behind the others, or in the place of one.
ghost use Rattle.std.specs.Prelude.{◌≡◌, ◌<◌, ◌++◌, ◌∷◌, [], true, false, length, slice_set};

use crate::guid_index::index::{GuidIndex, Indexed};
use pi_base::OutOfMemory;

impl GuidIndex {
    /// Puts an entry behind the others. False where it has no room; then they are as they were.
    pub fn push(&mut self, entry: Indexed) -> bool
        ensures pushed { result ≡ true → self.new ≡ self.old ++ entry ∷ [] }
        ensures same { result ≡ false → self.new ≡ self.old }
    {
        let len = self.entries.len();
        let Ok(place) = u32::try_from(len) else {
            return false;
        };
        match self.entries.push(entry) {
            Ok(()) => {}
            Err(OutOfMemory) => return false,
        }
        match self.places.add(entry.guid, place) {
            Ok(()) => true,
            Err(OutOfMemory) => {
                self.entries.truncate(len);
                false
            }
        }
    }

    /// Puts an entry in the place of another, whatever its GUID. False where it has no room; then they are as they were.
    pub fn replace(&mut self, place: u32, entry: Indexed) -> bool
        requires { place < length self.old }
        ensures replaced { result ≡ true → self.new ≡ slice_set self.old place entry }
        ensures same { result ≡ false → self.new ≡ self.old }
    {
        let old = match self.get(place as usize) {
            Some(old) => old,
            None => unreachable!(),
        };
        match self.places.pass(place, &old.guid, entry.guid) {
            Ok(()) => {
                self.entries.set(place as usize, entry);
                true
            }
            Err(OutOfMemory) => false,
        }
    }
}
