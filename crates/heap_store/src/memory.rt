// Permanent memory, pages and the boot mode.
ghost use Rattle.std.specs.Prelude.{◌≡◌, false};
ghost use Rattle.store_model.specs.Service.{AfterEach, OfEach, Performs, Present};
ghost use Rattle.store_model.specs.Service.Memory.{is_memory, pages, set_memory, with_boot_mode};
ghost use Rattle.store_model.specs.{Service.Reading.memory_due, StoreCall.Anything};

use crate::store::HeapStore;
use pi_base::{PAGE_LEN, Span};
use store_laws::services_keep_facts;
use store_model::StoreFault;

impl HeapStore {
    ghost use Rattle.heap_store.specs.HeapState.{StandsFor};

    // Whether the span may be permanent memory.
    fn is_memory(&self, begin: u64, len: u64) -> bool
        requires { Present (StandsFor self.now) Anything }
        ensures { OfEach (StandsFor self.now) Anything (λ s. result ≡ is_memory s begin len) }
    {
        begin % PAGE_LEN == 0
            && len % PAGE_LEN == 0
            && self.ram.contains(begin, len)
            && len >= self.temp.len
            && self.planned.is_none()
    }

    /// Says where permanent memory is.
    pub fn plan_memory(&mut self, begin: u64, len: u64) -> Result<(), StoreFault>
        requires { Present (StandsFor self.old) Anything }
        ensures { Performs false (StandsFor self.old) (StandsFor self.new) (λ s. set_memory s begin len) result }
    {
        services_keep_facts();
        if !self.is_memory(begin, len) {
            return Err(StoreFault::Bad);
        }
        self.planned = Some(Span { base: begin, len });
        Ok(())
    }

    /// Whether memory was planned and not yet moved to.
    pub fn is_due(&self) -> bool
        requires { Present (StandsFor self.now) Anything }
        ensures { OfEach (StandsFor self.now) Anything (λ s. result ≡ memory_due s) }
    {
        self.planned.is_some() && !self.moved
    }

    // Takes pages from the page region, before the move.
    fn take_early(&mut self, memory_type: u32, count: u32) -> Result<u64, StoreFault>
        requires state { Present (StandsFor self.old) Anything }
        requires before { self.old.moved ≡ false }
        ensures { Performs false (StandsFor self.old) (StandsFor self.new) (λ s. pages s memory_type count) result }
    {
        if self.pages.len == 0 {
            return Err(StoreFault::NotYet);
        }
        match self.heap.early_pages(
            &mut self.memory,
            &self.pages,
            self.early,
            memory_type,
            count,
        ) {
            Some(lowest) => {
                self.early += PAGE_LEN * count as u64;
                Ok(lowest)
            }
            None => Err(StoreFault::Full),
        }
    }

    /// Takes pages.
    pub fn take_pages(&mut self, memory_type: u32, count: u32) -> Result<u64, StoreFault>
        requires { Present (StandsFor self.old) Anything }
        ensures { Performs false (StandsFor self.old) (StandsFor self.new) (λ s. pages s memory_type count) result }
    {
        if !self.moved {
            return self.take_early(memory_type, count);
        }
        match self.heap.pages(&mut self.memory, memory_type, count) {
            Some(lowest) => Ok(lowest),
            None => Err(StoreFault::Full),
        }
    }

    /// The boot mode.
    pub fn tell_boot_mode(&self) -> u32
        requires { Present (StandsFor self.now) Anything }
        ensures { OfEach (StandsFor self.now) Anything (λ s. result ≡ s.boot_mode) }
    {
        self.heap.boot_mode(&self.memory)
    }

    /// Sets the boot mode.
    pub fn change_boot_mode(&mut self, mode: u32)
        requires { Present (StandsFor self.old) Anything }
        ensures { AfterEach (StandsFor self.old) (StandsFor self.new) (λ old new. new ≡ with_boot_mode old mode) }
    {
        self.heap.set_boot_mode(&mut self.memory, mode);
    }
}
