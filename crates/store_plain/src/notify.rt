// Notifications are registered.
ghost use Rattle.std.specs.Prelude.{◌≡◌, ◌≤◌, ◌<◌, ◌+◌, ℕ, true, length, fold, IfOk, OnOk, OnErr};
ghost use Rattle.std.specs.List.{list_any};
ghost use Rattle.store_model.specs.{StoreState.free, Service.Answers, Service.Descriptor.is_ppi, Service.Descriptor.kind_at};
ghost use Rattle.store_model.specs.{Service.Install.node_need, StoreCall.AreFew};
ghost use Rattle.store_model.specs.Service.Notify.{notify, notified, notify_pairs, notify_sweep, new_callbacks, with_note};

use crate::nodes::sweep_from;
use crate::pairs::descriptors;
use crate::store::PlainStore;
use pi_base::OutOfMemory;
use store_model::{Desc, DescKind, Entry, StoreFault, Sweep};

impl PlainStore {
    ghost use Rattle.store_plain.specs.PlainState.{state_of};
    ghost use Rattle.store_plain.specs.Nodes.{HasNodes, HasEntries};

    // Whether one of a list is a PPI.
    fn any_ppi(&self, list: &[Desc]) -> bool
        ensures { result ≡ list_any (λ d. is_ppi (kind_at (state_of self.now) d.offset)) list.now }
    {
        'descs: for d in list {
            if self.is_ppi(d.offset) {
                return true;
            }
        }
        false
    }

    // The callbacks of a list.
    fn callbacks_in(&self, list: &[Desc]) -> usize
        ensures count { result ≡ length (new_callbacks (state_of self.now) list.now) }
        ensures few { result ≤ length list.now }
    {
        let mut count = 0;
        'descs: for d in list {
            if self.kind_at(d.offset) == DescKind::Callback {
                count += 1;
            }
        }
        count
    }

    // The pairs of all PPIs with the dispatch notifications of a list.
    fn ppi_pairs(&self, list: &[Desc]) -> Result<Vec<(u64, u64)>, OutOfMemory>
        ensures { IfOk result (λ pairs. pairs.items ≡ notify_pairs (state_of self.now) list.now) }
    {
        let ppis = descriptors(*self.hobs.allocator(), self.ppis.as_slice())?;
        let notes = self.dispatches_of(list)?;
        self.pairs_of(ppis.as_slice(), notes.as_slice())
    }

    // Adds a notification to the list of its kind.
    fn push_note(&mut self, d: Desc, by: u32)
        requires nodes { HasNodes self.old 1 }
        requires memory { HasEntries self.old 1 }
        ensures state { state_of self.new ≡ with_note by (state_of self.old) d }
        ensures nodes { (n : ℕ) → HasNodes self.old (n + 1) → HasNodes self.new n }
        ensures entries { (n : ℕ) → HasEntries self.old (n + 1) → HasEntries self.new n }
        ensures pendings { self.new.pendings ≡ self.old.pendings }
    {
        let kind = self.kind_at(d.offset);
        if kind == DescKind::Ppi {
            return;
        }
        let node = self.push_node();
        let descriptor = d.offset;
        let entry = Entry {
            node,
            descriptor,
            by,
        };
        match kind {
            DescKind::Ppi => {}
            DescKind::Callback => self.callbacks.push_reserved(entry),
            DescKind::Dispatch => self.dispatches.push_reserved(entry),
        }
    }

    // Adds notifications.
    fn add_notes(&mut self, list: &[Desc], by: u32)
        requires nodes { HasNodes self.old (length list.now) }
        requires memory { HasEntries self.old (length list.now) }
        ensures state { state_of self.new ≡ fold (with_note by) (state_of self.old) list.now }
        ensures nodes { (n : ℕ) → HasNodes self.old (length list.now + n) → HasNodes self.new n }
        ensures pendings { self.new.pendings ≡ self.old.pendings }
    {
        'descs: for d in list {
            self.push_note(*d, by);
        }
    }

    // Adds notifications and the pairs, for which there is room. If memory runs out, nothing changes.
    fn put_notes(
        &mut self,
        list: &[Desc],
        pairs: &[(u64, u64)],
        by: u32,
    ) -> Result<Sweep, OutOfMemory>
        requires few { AreFew list.now }
        requires pairs { pairs.now ≡ notify_pairs (state_of self.old) list.now }
        requires room { node_need (length list.now) + node_need (length pairs.now) ≤ free (state_of self.old) }
        ensures sweep { IfOk result (λ sweep. sweep ≡ notify_sweep (state_of self.old) list.now) }
        ensures state { OnOk result (state_of self.new ≡ notified (state_of self.old) list.now by) }
        ensures err { OnErr result (state_of self.new ≡ state_of self.old) }
    {
        let at = self.callbacks.len();
        let to = at + self.callbacks_in(list);
        let sweep = sweep_from(0, self.ppis.len(), at, to)?;
        self.reserve(list.len(), pairs.len())?;
        self.add_notes(list, by);
        self.add_pendings(pairs, by);
        Ok(sweep)
    }

    // Registers notifications, in the order of the list.
    pub(crate) fn register(&mut self, list: &[Desc], by: u32) -> Result<Sweep, StoreFault>
        requires { AreFew list.now }
        ensures { Answers true (notify (state_of self.old) list.now by) (state_of self.old) result (state_of self.new) }
    {
        if self.any_ppi(list) {
            return Err(StoreFault::Bad);
        }
        let pairs = self.ppi_pairs(list)?;
        if !self.has_room(list.len(), pairs.len()) {
            return Err(StoreFault::Full);
        }
        Ok(self.put_notes(list, pairs.as_slice(), by)?)
    }
}
