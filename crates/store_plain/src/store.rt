// A store over lists.
ghost use Rattle.std.specs.Prelude.{◌≡◌, ◌+◌, ◌≤◌, sum_by, if◌then◌else◌};
ghost use Rattle.store_model.specs.StoreState.{handoff_len, header_len, hob_len, page_bytes, range_of, empty_store};
ghost use Rattle.boot_plan.specs.declared.limits.TheConstants.{MOST_END};
ghost use Rattle.store_model.specs.StateFacts.{IsBoard, IsStoreState};

use crate::length::HANDOFF_LEN;
use crate::plain_hob::PlainHob;
use phys_mem::Rom;
use pi_base::{Seq, Span};
use std::alloc::Global;
use store_model::{Entry, Pending};

/// A store of PEI services over plain lists.
#[derive(Drop)]
pub struct PlainStore {
    pub(crate) temp: Span,
    pub(crate) region: u64,
    pub(crate) ram: Span,
    pub(crate) roms: Seq<Rom>,
    pub(crate) hobs: Vec<PlainHob>,
    pub(crate) ppis: Vec<Entry>,
    pub(crate) callbacks: Vec<Entry>,
    pub(crate) dispatches: Vec<Entry>,
    pub(crate) pendings: Vec<Pending>,
    pub(crate) base: u64,
    pub(crate) len: u64,
    pub(crate) page_end: u64,
    pub(crate) taken: u64,
    pub(crate) boot_mode: u32,
    pub(crate) planned: Option<Span>,
    pub(crate) moved: bool,
    // The place of the end HOB.
    pub(crate) end: u64,
    ghost ended: { end ≡ handoff_len + sum_by hob_len hobs.items },
    ghost room: { end + header_len + page_bytes moved taken ≤ len },
    ghost heap: { base + len ≤ page_end },
    ghost region_end: { region ≤ page_end },
    ghost early: { (if moved then 0 else taken) ≤ region },
    ghost low: { page_end ≤ MOST_END },
}

impl PlainStore {
    ghost use Rattle.store_plain.specs.PlainState.{state_of};

    /// The store at the start of a boot: the heap in temporary RAM, without the last `pages` bytes, from which early pages are taken.
    pub fn new(alloc: Global, temp: Span, pages: u64, ram: Span, roms: Seq<Rom>) -> PlainStore
        requires { IsBoard (record { temp = range_of temp; pages = pages; ram = range_of ram; roms = roms }) }
        ensures state { state_of result ≡ empty_store (record { temp = range_of temp; pages = pages; ram = range_of ram; roms = roms }) }
        ensures facts { IsStoreState (empty_store (record { temp = range_of temp; pages = pages; ram = range_of ram; roms = roms })) }
    {
        PlainStore {
            temp,
            region: pages,
            ram,
            roms,
            hobs: Vec::new(alloc),
            ppis: Vec::new(alloc),
            callbacks: Vec::new(alloc),
            dispatches: Vec::new(alloc),
            pendings: Vec::new(alloc),
            base: temp.base,
            len: temp.len - pages,
            page_end: temp.base + temp.len,
            taken: 0,
            boot_mode: 0,
            planned: None,
            moved: false,
            end: HANDOFF_LEN,
        }
    }
}
