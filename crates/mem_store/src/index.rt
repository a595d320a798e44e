// What is installed and registered, by GUID.
ghost use Rattle.std.specs.Prelude.{◌≡◌, ◌++◌, ◌∷◌, [], true, if◌then◌else◌, IfOk, map, slice_set};
ghost use Rattle.store_model.specs.{Service.OfEach, Service.Present, Service.Descriptor.offsets};
ghost use Rattle.store_model.specs.{StateFacts.IsDesc, StateFacts.IsStoreState, StoreState.StoreState};
ghost use Rattle.store_model.specs.{Service.Notify.new_callbacks, Service.Notify.new_dispatches, StoreCall.Anything, StoreCall.AreDescs};
ghost use Rattle.mem_store.specs.{Rows.row_at, Picked.is_picked, Picked.picked_of, Nodes.AreKnown, Nodes.NamesOther};
ghost use Rattle.heap_store.specs.HeapState as H;
ghost use Rattle.mem_store.specs.Indexed.{Becomes, BecomesCore, Says, held};

use crate::guid_index::{GuidIndex, Indexed};
use crate::named::Named;
use heap_store::HeapStore;
use pi_base::{MEMORY_PPI, OutOfMemory};
use std::alloc::Global;
use store_model::Desc;

/// The PPIs and the notifications of a store by GUID, each list in its order.
#[derive(Drop)]
pub struct Index {
    /// The installed PPIs.
    pub(crate) ppis: GuidIndex,
    /// The notifications that run inside the call that matches them.
    pub(crate) callbacks: GuidIndex,
    /// Those that are queued.
    pub(crate) dispatches: GuidIndex,
    /// Whether they say what the lists say. Where an entry had no room, they say nothing from then on.
    pub(crate) right: bool,
    /// The nodes of the PPIs, as far as they are known.
    pub(crate) named: Named,
}

// The row of a descriptor.
pub(crate) fn row_of(behind: &HeapStore, d: Desc) -> Indexed
    requires { Present (H.StandsFor behind.now) (λ s. IsDesc s d) }
    ensures { OfEach (H.StandsFor behind.now) (λ s. IsDesc s d) (λ s. result ≡ row_at s d.offset) }
{
    let told = behind.tell_descriptor(d);
    Indexed {
        guid: told.0,
        at: d.offset,
    }
}

// Which of the descriptors that are handed in have their rows put into a list.
#[derive(Clone, Copy)]
pub(crate) enum Which {
    All,
    Callbacks,
    Others,
}

// Whether a descriptor is one of these.
fn is_one(which: Which, is_callback: bool) -> bool
    ensures { result ≡ is_picked which is_callback }
{
    match which {
        Which::All => true,
        Which::Callbacks => is_callback,
        Which::Others => !is_callback,
    }
}

// Puts a row behind the others, where that is due. False where it has no room.
fn put_if(rows: &mut GuidIndex, due: bool, row: Indexed) -> bool
    ensures { result ≡ true → rows.new ≡ rows.old ++ (if due then row ∷ [] else []) }
{
    if due {
        return rows.push(row);
    }
    true
}

// Puts the rows of these descriptors of a list behind the others. False where one has no room.
fn put_rows(rows: &mut GuidIndex, behind: &HeapStore, list: &[Desc], which: Which) -> bool
    requires { Present (H.StandsFor behind.now) (AreDescs list.now) }
    ensures { OfEach (H.StandsFor behind.now) (AreDescs list.now)
        (λ s. result ≡ true → rows.new ≡ rows.old ++ map (row_at s) (picked_of which s list.now)) }
{
    'descs: for d in list {
        let row = row_of(behind, *d);
        let due = is_one(which, behind.is_callback(*d));
        if !put_if(rows, due, row) {
            return false;
        }
    }
    true
}

impl Index {
    // Nothing yet, and room for so many entries in each list.
    pub(crate) fn new(alloc: Global, most: usize) -> Result<Index, OutOfMemory>
        ensures rows { IfOk result (λ index. held index ≡ record { ppis = []; callbacks = []; dispatches = [] }) }
        ensures named { IfOk result (λ index. index.named.nodes ≡ []) }
    {
        let Ok(ppis) = GuidIndex::new(alloc, most) else {
            return Err(OutOfMemory);
        };
        let Ok(callbacks) = GuidIndex::new(alloc, most) else {
            drop(ppis);
            return Err(OutOfMemory);
        };
        let Ok(dispatches) = GuidIndex::new(alloc, most) else {
            drop(ppis);
            drop(callbacks);
            return Err(OutOfMemory);
        };
        let Ok(named) = Named::new(alloc) else {
            drop(ppis);
            drop(callbacks);
            drop(dispatches);
            return Err(OutOfMemory);
        };
        Ok(Index {
            ppis,
            callbacks,
            dispatches,
            right: true,
            named,
        })
    }

    // PPIs are installed.
    pub(crate) fn put_ppis(&mut self, behind: &HeapStore, list: &[Desc])
        requires { Present (H.StandsFor behind.now) (AreDescs list.now) }
        ensures named { self.new.named ≡ self.old.named }
        ensures rows { OfEach (H.StandsFor behind.now) (AreDescs list.now)
            (λ s. Becomes self.old self.new (record (held self.old) { ppis = self.old.ppis ++ map (row_at s) (offsets list.now) })) }
    {
        if self.right {
            self.right = put_rows(&mut self.ppis, behind, list, Which::All);
        }
    }

    // Notifications are registered.
    pub(crate) fn put_notifications(&mut self, behind: &HeapStore, list: &[Desc])
        requires { Present (H.StandsFor behind.now) (AreDescs list.now) }
        ensures named { self.new.named ≡ self.old.named }
        ensures rows { OfEach (H.StandsFor behind.now) (AreDescs list.now) (λ s. Becomes self.old self.new (record (held self.old) {
          callbacks = self.old.callbacks ++ map (row_at s) (new_callbacks s list.now);
          dispatches = self.old.dispatches ++ map (row_at s) (new_dispatches s list.now);
        })) }
    {
        if self.right {
            self.right = put_rows(&mut self.callbacks, behind, list, Which::Callbacks)
                && put_rows(&mut self.dispatches, behind, list, Which::Others);
        }
    }

    // A PPI is put in the place of another.
    pub(crate) fn put_other(&mut self, place: u32, row: Indexed)
        ensures rows { Becomes self.old self.new (record (held self.old) { ppis = slice_set self.old.ppis place row }) }
        ensures named { NamesOther self.old.named self.new.named place row.at }
    {
        self.named.name_other(place, row.at);
        if self.right {
            self.right = (place as usize) < self.ppis.len() && self.ppis.replace(place, row);
        }
    }

    // Learns the nodes of the PPIs that came since, as far as there is room.
    pub(crate) fn learn(&mut self, behind: &HeapStore)
        requires { Present (H.StandsFor behind.now) (Says self.old) }
        ensures { OfEach (H.StandsFor behind.now) (Says self.old) (Says self.new) }
    {
        if !self.right {
            return;
        }
        if !self.named.right {
            return;
        }
        self.named.learn(&self.ppis, behind);
    }

    // Whether the nodes of all PPIs are known.
    pub(crate) fn knows_ppis(&self) -> bool
        ensures { result ≡ true → (s : StoreState) → IsStoreState s → Says self.now s → AreKnown self.now.named.nodes s }
    {
        self.right && self.named.right && self.named.nodes.len() == self.ppis.len()
    }

    // The PPI of permanent memory is installed.
    pub(crate) fn put_core(&mut self, behind: &HeapStore)
        requires { Present (H.StandsFor behind.now) Anything }
        ensures named { self.new.named ≡ self.old.named }
        ensures rows { OfEach (H.StandsFor behind.now) Anything (λ s. BecomesCore self.old self.new s) }
    {
        if !self.right {
            return;
        }
        self.right = false;
        let Ok(others) = u16::try_from(self.ppis.count(&MEMORY_PPI)) else {
            return;
        };
        let Some(found) = behind.find_ppi(&MEMORY_PPI, others) else {
            return;
        };
        self.right = self.ppis.push(Indexed {
            guid: MEMORY_PPI,
            at: found.0.offset,
        });
    }
}
