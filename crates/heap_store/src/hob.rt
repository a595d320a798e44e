// HOBs are made and told.
ghost use Rattle.std.specs.Prelude.{◌≡◌, ◌++◌, false, IfOk, OnOk, Some};
ghost use Rattle.hob_codec.specs.HobView.{hob_value};
ghost use Rattle.store_model.specs.Service.{OfEach, Performs, Present};
ghost use Rattle.store_model.specs.{Service.Hob.create_hob, Service.Reading.fv_bases, Service.Reading.hob_at, StoreState.StoreState};
ghost use Rattle.store_model.specs.HeapImage.{heap_image};
ghost use Rattle.store_model.specs.StoreCall.{Anything, IsHobPlace, IsScriptHob};
ghost use Rattle.heap_store.specs.Volumes.{base_told};

use crate::store::HeapStore;
use hob_codec::kind::VOLUME;
use hob_codec::{HANDOFF_LEN, Hob};
use pei_heap::word_in;
use pi_base::{OutOfMemory, Seq};
use store_laws::heap::{hobs_told, image_facts};
use store_laws::states_fit;
use store_model::{HobSpan, StoreFault};

// More HOBs than a heap has.
const MOST_HOBS: u32 = 1 << 28;

// The offset of a HOB's body.
const BODY_AT: usize = hob_codec::HEADER_LEN;

impl HeapStore {
    ghost use Rattle.heap_store.specs.HeapState.{StandsFor};

    /// Makes a HOB and answers its address.
    pub fn make_hob(&mut self, hob: &Hob) -> Result<u64, StoreFault>
        requires state { Present (StandsFor self.old) Anything }
        requires hob { IsScriptHob (hob_value hob.now) }
        ensures { Performs false (StandsFor self.old) (StandsFor self.new) (λ s. create_hob s (hob_value hob.now)) result }
    {
        match self.heap.create(&mut self.memory, hob) {
            Some(address) => Ok(address),
            None => Err(StoreFault::Full),
        }
    }

    /// The HOB at an offset of the heap.
    pub fn span_at(&self, offset: u64) -> Option<HobSpan>
        requires { Present (StandsFor self.now) (IsHobPlace offset) }
        ensures { OfEach (StandsFor self.now) (IsHobPlace offset) (λ s. result ≡ hob_at s offset) }
    {
        self.heap.place(&self.memory, offset)
    }

    // Adds the base of the volume that a HOB tells of, where it tells of one.
    fn push_base(&self, bases: &mut Seq<u64>, offset: u64, span: HobSpan) -> Result<(), OutOfMemory>
        requires { (s : StoreState) × StandsFor self.now s × (hob_at s offset ≡ Some span) }
        ensures { (s : StoreState) → StandsFor self.now s
            → OnOk result (bases.new ≡ bases.old ++ base_told (heap_image s) offset span.kind) }
    {
        hobs_told();
        image_facts();
        states_fit();
        if span.kind != VOLUME {
            return Ok(());
        }
        let heap = self.heap.bytes(&self.memory);
        bases.push(word_in(&heap, offset as usize + BODY_AT))
    }

    /// The bases of the volumes that HOBs tell of.
    pub fn volume_bases(&self) -> Result<Seq<u64>, OutOfMemory>
        requires { Present (StandsFor self.now) Anything }
        ensures { OfEach (StandsFor self.now) Anything (λ s. IfOk result (λ bases. bases ≡ fv_bases s)) }
    {
        hobs_told();
        states_fit();
        let mut bases = Seq::new(self.memory.alloc());
        let mut offset = HANDOFF_LEN as u64;
        'hobs: for _hob in 0..MOST_HOBS {
            let span = match self.heap.place(&self.memory, offset) {
                Some(span) => span,
                None => return Ok(bases),
            };
            self.push_base(&mut bases, offset, span)?;
            offset = span.next;
        }
        Ok(bases)
    }
}
