// A store in memory.
ghost use Rattle.std.specs.Prelude.{IfOk};
ghost use Rattle.store_model.specs.{StateFacts.IsBoard, StoreState.empty_store, StoreState.range_of};

use pei_heap::Heap;
use pei_heap::links::Heads;
use phys_mem::{PhysMem, Rom};
use pi_base::{OutOfMemory, Seq, Span};
use std::alloc::Global;

/// A store of PEI services in the bytes of physical memory. It keeps no list: PPIs, notifications, queued pairs and HOBs are read where they stand.
#[derive(Drop)]
pub struct HeapStore {
    /// Physical memory.
    pub memory: PhysMem,
    /// Temporary RAM.
    pub temp: Span,
    /// RAM.
    pub ram: Span,
    /// The heap: in temporary RAM before the move, and permanent memory after it.
    pub heap: Heap,
    /// The ends of the lists in the heap.
    pub heads: Heads,
    /// Where permanent memory is, once that was said.
    pub planned: Option<Span>,
    /// Whether the heap is in permanent memory.
    pub moved: bool,
    /// The end of temporary RAM from which early pages are taken, of length 0 for none.
    pub pages: Span,
    /// How many bytes of pages were taken before the move.
    pub early: u64,
}

// The ends of lists that are empty.
const NO_HEADS: Heads = Heads {
    ppi: 0,
    ppi_tail: 0,
    note: 0,
    note_tail: 0,
    later: 0,
    later_tail: 0,
    queue: 0,
    queue_tail: 0,
    ppis: 0,
    notes: 0,
};

impl HeapStore {
    ghost use Rattle.heap_store.specs.HeapState.{StandsFor};

    /// The store at the start of a boot: the heap in temporary RAM, without the last `pages` bytes, from which early pages are taken.
    pub fn new(
        alloc: Global,
        temp: Span,
        pages: u64,
        ram: Span,
        roms: Seq<Rom>,
    ) -> Result<HeapStore, OutOfMemory>
        requires { IsBoard (record { temp = range_of temp; pages = pages; ram = range_of ram; roms = roms }) }
        ensures { IfOk result (λ m. StandsFor m
            (empty_store (record { temp = range_of temp; pages = pages; ram = range_of ram; roms = roms }))) }
    {
        let mut memory = PhysMem::new(alloc, temp, ram, roms)?;
        let len = temp.len - pages;
        let span = Span {
            base: temp.base,
            len,
        };
        let heap = Heap::begin(&mut memory, span);
        Ok(HeapStore {
            memory,
            temp,
            ram,
            heap,
            heads: NO_HEADS,
            planned: None,
            moved: false,
            pages: Span {
                base: temp.base + len,
                len: pages,
            },
            early: 0,
        })
    }
}
