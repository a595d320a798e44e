// The next pair of a sweep, by the index. PI 1.8, volume 1, `NotifyPpi()`.
ghost use Rattle.std.specs.Prelude.{◌≡◌, ◌≤◌, ◌<◌, ℕ, false};
ghost use Rattle.mem_store.specs.Indexed.{held};
ghost use Rattle.mem_store.specs.Meeting.{IsFirstMet, IsNextPair, NoneMeets, meets};

use crate::index::Index;
use store_laws::sweeps_go_on;
use store_model::Sweep;

// A call hands in no more notifications than this.
const MOST_NEW: u32 = 8;

impl Index {
    // The first callback that meets a PPI, from one place on and before another.
    fn note_of(&self, ppi: u32, from: u32, to: u32) -> Option<u32>
        ensures { IsFirstMet (held self.now) ppi from to result }
    {
        let row = match self.ppis.get(ppi as usize) {
            Some(row) => row,
            None => return None,
        };
        let note = match self.callbacks.next(&row.guid, from) {
            Some(note) => note,
            None => return None,
        };
        if note < to {
            return Some(note);
        }
        None
    }

    // The first PPI that meets a callback, from one place on and before another, which is answered where there is none.
    fn ppi_of(&self, note: u32, from: u32, to: u32) -> u32
        requires { from ≤ to }
        ensures none { (ppi : ℕ) → from ≤ ppi → ppi < result → meets (held self.now) ppi note ≡ false }
        ensures on { from ≤ result }
        ensures to { result ≤ to }
    {
        let row = match self.callbacks.get(note as usize) {
            Some(row) => row,
            None => return to,
        };
        match self.ppis.next(&row.guid, from) {
            Some(ppi) => ppi.min(to),
            None => to,
        }
    }

    // The first PPI that meets a callback of a sweep, from a place on, or the place behind the sweep's last PPI. Where the sweep has all callbacks
    // and few PPIs, the place itself.
    fn ppi_from(&self, sweep: &Sweep, from: u32) -> u32
        requires { from ≤ sweep.now.ppi_to }
        ensures none { NoneMeets (held self.now) sweep.now from result }
        ensures on { from ≤ result }
        ensures to { result ≤ sweep.now.ppi_to }
    {
        if sweep.note_to > sweep.note_from.saturating_add(MOST_NEW) {
            return from;
        }
        let mut to = sweep.ppi_to;
        'notes: for note in sweep.note_from..sweep.note_to {
            to = self.ppi_of(note, from, to);
        }
        to
    }

    // The places of the PPI and of the callback that fire next.
    pub(crate) fn next_pair(&self, sweep: &Sweep) -> Option<(u32, u32)>
        ensures { IsNextPair self.now sweep.now result }
    {
        sweeps_go_on();
        let mut ppi = sweep.ppi_at;
        let mut from = sweep.note_at;
        'ppis: while ppi < sweep.ppi_to {
            match self.note_of(ppi, from, sweep.note_to) {
                Some(note) => return Some((ppi, note)),
                None => {
                    ppi = self.ppi_from(sweep, ppi + 1);
                    from = sweep.note_from;
                }
            }
        }
        None
    }
}
