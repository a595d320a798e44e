// The room that is left in the heap, and HOBs added after the others.
ghost use Rattle.std.specs.Prelude.{◌≡◌, ◌+◌, ◌≤◌, ◌<◌, ◌^◌, OnOk, OnErr};
ghost use Rattle.store_model.specs.StoreState.{free, page_bytes, hob_len, appended};

use crate::length::HEADER_LEN;
use crate::plain_hob::PlainHob;
use crate::store::PlainStore;
use pi_base::OutOfMemory;

impl PlainStore {
    ghost use Rattle.store_plain.specs.PlainState.{state_of};

    // The bytes that are left for HOBs.
    pub(crate) fn free(&self) -> u64
        ensures free { result ≡ free (state_of self.now) }
        ensures fits { self.now.end + 8 + result + page_bytes self.now.moved self.now.taken ≡ self.now.len }
        ensures below { self.now.len < 2 ^ 41 }
    {
        if self.moved {
            self.len - HEADER_LEN - self.end - self.taken
        } else {
            self.len - HEADER_LEN - self.end
        }
    }

    // Puts a HOB after the others. If memory runs out, nothing changes.
    pub(crate) fn put_behind(&mut self, hob: PlainHob) -> Result<(), OutOfMemory>
        requires { hob_len hob ≤ free (state_of self.old) }
        ensures ok { OnOk result (state_of self.new ≡ appended (state_of self.old) hob) }
        ensures end { OnOk result (self.new.end ≡ self.old.end + hob_len hob) }
        ensures err { OnErr result (state_of self.new ≡ state_of self.old) }
    {
        let end = self.end + hob.len() as u64;
        self.hobs.push(hob).map_err(|_| OutOfMemory)?;
        self.end = end;
        Ok(())
    }
}
