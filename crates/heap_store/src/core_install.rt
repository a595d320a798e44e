// The PPI of permanent memory. PI 1.8, volume 1, `EFI_PEI_PERMANENT_MEMORY_INSTALLED_PPI_GUID`.
ghost use Rattle.std.specs.Prelude.{◌≡◌, ◌+◌, false, if◌then◌else◌, nat_lt, length, filter};
ghost use Rattle.pi_base.specs.Guids as G;
ghost use Rattle.store_model.specs.declared.store_handle.EntryList.TheVariants as L;
ghost use Rattle.store_model.specs.{StoreState.free, Service.Install.core_install, Service.Install.node_need, Service.Reading.told_of};
ghost use Rattle.store_model.specs.Service.{OfEach, Performs, Present};
ghost use Rattle.store_model.specs.StoreCall.{Anything};

use crate::install::NODE_NEED;
use crate::store::HeapStore;
use hob_codec::HEADER_LEN;
use pei_heap::links::{entry_behind, same_guid};
use pi_base::{Guid, MEMORY_PPI};
use store_laws::{bodies_stay, entries_are_told, steps_keep_facts};
use store_model::{CORE, DescKind, EntryList, GuidFrom, INLINE_DESCRIPTOR_LEN, StoreFault, Sweep};

// The bytes of a descriptor whose GUID stands behind it, with its header.
const DESCRIPTOR_NEED: u64 = INLINE_DESCRIPTOR_LEN + HEADER_LEN as u64;

// More notifications than there are.
const MOST_ENTRIES: u32 = 1 << 28;

// 1 where two GUIDs are the same, otherwise 0.
fn one_if_same(a: &Guid, b: &Guid) -> u32
    ensures { result ≡ (if G.same_guid a.now b.now then 1 else 0) }
{
    if same_guid(a, b) { 1 } else { 0 }
}

impl HeapStore {
    ghost use Rattle.heap_store.specs.HeapState.{StandsFor};

    // How many dispatch notifications have a GUID.
    fn dispatches_of(&self, guid: &Guid) -> u32
        requires { Present (StandsFor self.now) Anything }
        ensures { OfEach (StandsFor self.now) Anything
            (λ s. result ≡ length (filter (λ told. G.same_guid guid.now told.guid) (told_of s L.Dispatches))) }
    {
        entries_are_told();
        let mut count = 0;
        let mut node = None;
        'notes: for _note in 0..MOST_ENTRIES {
            let told = match entry_behind(
                &self.heap,
                &self.memory,
                &self.heads,
                EntryList::Dispatches,
                node,
            ) {
                Some(told) => told,
                None => return count,
            };
            count += one_if_same(guid, &told.guid);
            node = Some(told.node);
        }
        count
    }

    // Whether the PPI's descriptor, its node and so many pairs have no room.
    fn is_full_for_core(&self, pairs: u64) -> bool
        requires { Present (StandsFor self.now) Anything }
        ensures { OfEach (StandsFor self.now) Anything
            (λ s. result ≡ nat_lt (free s) (48 + (node_need 1 + node_need pairs))) }
    {
        let free = self.heap.free(&self.memory);
        if free < DESCRIPTOR_NEED {
            return true;
        }
        (free - DESCRIPTOR_NEED) / NODE_NEED <= pairs
    }

    /// The core installs the PPI of permanent memory, with its descriptor, or does neither.
    pub fn install_memory_ppi(&mut self) -> Result<Sweep, StoreFault>
        requires { Present (StandsFor self.old) Anything }
        ensures { Performs false (StandsFor self.old) (StandsFor self.new) core_install result }
    {
        bodies_stay();
        steps_keep_facts();
        let pairs = self.dispatches_of(&MEMORY_PPI);
        if self.is_full_for_core(pairs as u64) {
            return Err(StoreFault::Full);
        }
        let d = match self.make_desc(DescKind::Ppi, GuidFrom::Inline(MEMORY_PPI), 0) {
            Ok(d) => d,
            Err(_fault) => unreachable!(),
        };
        let ppis = [d];
        let list = ppis.as_slice();
        match self.install_ppis(list, CORE) {
            Ok(sweep) => Ok(sweep),
            Err(_refused) => unreachable!(),
        }
    }
}
