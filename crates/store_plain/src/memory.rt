// Permanent memory and pages.
ghost use Rattle.std.specs.Prelude.{◌≡◌, ◌≤◌, ◌+◌, true, false, if◌then◌else◌};
ghost use Rattle.store_model.specs.{StoreState.free, StoreState.page_bytes, Service.Answers};
ghost use Rattle.store_model.specs.Service.Memory.{set_memory, pages, is_memory, pages_taken, early_pages, with_boot_mode};

use crate::length::{ALLOCATION_LEN, HEADER_LEN};
use crate::plain_hob::{PlainBody, PlainHob};
use crate::store::PlainStore;
use hob_codec::kind::ALLOCATION;
use pi_base::{PAGE_LEN, Span};
use store_model::{AllocationBody, StoreFault};

impl PlainStore {
    ghost use Rattle.store_plain.specs.PlainState.{state_of};

    // Whether the span may be permanent memory.
    fn is_memory(&self, begin: u64, len: u64) -> bool
        ensures { result ≡ is_memory (state_of self.now) begin len }
    {
        begin % PAGE_LEN == 0
            && len % PAGE_LEN == 0
            && begin >= self.ram.base
            && len <= self.ram.len
            && begin - self.ram.base <= self.ram.len - len
            && len >= self.temp.len
            && self.planned.is_none()
    }

    // Reports where permanent memory is.
    pub(crate) fn plan_memory(&mut self, begin: u64, len: u64) -> Result<(), StoreFault>
        ensures { Answers true (set_memory (state_of self.old) begin len) (state_of self.old) result (state_of self.new) }
    {
        if !self.is_memory(begin, len) {
            return Err(StoreFault::Bad);
        }
        self.planned = Some(Span { base: begin, len });
        Ok(())
    }

    pub(crate) fn change_boot_mode(&mut self, mode: u32)
        ensures { state_of self.new ≡ with_boot_mode (state_of self.old) mode }
    {
        self.boot_mode = mode;
    }

    // Takes so many bytes of pages, for which there is room.
    fn put_pages(&mut self, memory_type: u32, len: u64) -> Result<u64, StoreFault>
        requires heap { 48 + page_bytes self.old.moved len ≤ free (state_of self.old) }
        requires region { (if self.old.moved then 0 else self.old.taken + len) ≤ self.old.region }
        ensures { Answers true (pages_taken (state_of self.old) memory_type len) (state_of self.old) result (state_of self.new) }
    {
        let taken = self.taken + len;
        let body = AllocationBody {
            memory_type,
            len,
            below: taken,
        };
        self.put_behind(PlainHob::new(ALLOCATION, PlainBody::Allocation(body)))?;
        self.taken = taken;
        Ok(self.page_end - taken)
    }

    // Takes pages from the page region, before the move.
    fn take_early(&mut self, memory_type: u32, len: u64) -> Result<u64, StoreFault>
        requires { self.old.moved ≡ false }
        ensures { Answers true (early_pages (state_of self.old) memory_type len) (state_of self.old) result (state_of self.new) }
    {
        if self.region == 0 {
            return Err(StoreFault::NotYet);
        }
        if self.region - self.taken < len {
            return Err(StoreFault::Full);
        }
        if self.free() < ALLOCATION_LEN + HEADER_LEN {
            return Err(StoreFault::Full);
        }
        self.put_pages(memory_type, len)
    }

    // Takes pages.
    pub(crate) fn take_pages(&mut self, memory_type: u32, count: u32) -> Result<u64, StoreFault>
        ensures { Answers true (pages (state_of self.old) memory_type count) (state_of self.old) result (state_of self.new) }
    {
        let len = PAGE_LEN * count as u64;
        if !self.moved {
            return self.take_early(memory_type, len);
        }
        if self.free() < ALLOCATION_LEN + HEADER_LEN + len {
            return Err(StoreFault::Full);
        }
        self.put_pages(memory_type, len)
    }
}
