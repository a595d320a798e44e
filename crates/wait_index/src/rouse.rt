// A GUID came or went: the expressions that ask for it are stale.
ghost use Rattle.std.specs.Prelude.{[], ◌∷◌};
ghost use Rattle.wait_index.specs.{Index.watchers_at, Places.IsInOrder, Rouse.IsRoused};

use crate::places::Places;
use pi_base::Seq;

impl Places {
    /// Marks the expression of a module as stale, if its part has a place and waits.
    pub(crate) fn rouse(&mut self, number: u32)
        requires { IsInOrder self.old }
        ensures in_order { IsInOrder self.new }
        ensures roused { IsRoused (number ∷ []) self.old self.new }
    {
        let standing = self.standing(number);
        if !standing.waits {
            return;
        }
        if let Some(place) = standing.place {
            self.stale.insert(place as usize);
        }
    }

    /// Marks the expressions of these modules as stale, if their parts have places and wait.
    pub(crate) fn rouse_all(&mut self, numbers: &[u32])
        requires { IsInOrder self.old }
        ensures in_order { IsInOrder self.new }
        ensures roused { IsRoused numbers.now self.old self.new }
    {
        'numbers: for number in numbers {
            self.rouse(*number);
        }
    }

    /// Marks the expressions of the modules that watch a slot as stale, if their parts have places and wait.
    pub(crate) fn rouse_watchers(&mut self, watchers: &[Seq<u32>], slot: usize)
        requires { IsInOrder self.old }
        ensures in_order { IsInOrder self.new }
        ensures roused { IsRoused (watchers_at watchers.now slot) self.old self.new }
    {
        if let Some(numbers) = watchers.get(slot) {
            self.rouse_all(numbers.as_slice());
        }
    }
}
