// Installing PPIs, and replacing one by another.
ghost use Rattle.std.specs.Prelude.{◌≡◌, ◌≤◌, ◌<◌, ◌+◌, ℕ, true, false, length, IfOk, OnOk, OnErr, IfSome, IfNone};
ghost use Rattle.std.specs.List.{list_all};
ghost use Rattle.store_model.specs.{StoreState.free, Service.Answers, Service.Descriptor.is_ppi, Service.Descriptor.kind_at};
ghost use Rattle.store_model.specs.Service.Install.{install, reinstall, core_install, install_pairs, install_sweep, installed, reinstall_pairs, reinstall_sweep, reinstalled, node_need, renamed, place_of, is_installed};
ghost use Rattle.store_model.specs.{StoreCall.AreFew, declared.store_handle.Desc.Desc};

use crate::nodes::sweep_from;
use crate::pairs::{descriptors, offsets};
use crate::store::PlainStore;
use pi_base::{MEMORY_PPI, OutOfMemory};
use store_model::{CORE, Desc, DescKind, GuidFrom, StoreFault, Sweep};

impl PlainStore {
    ghost use Rattle.store_plain.specs.Nodes.{HasNodes};
    ghost use Rattle.store_plain.specs.PlainState.{state_of};

    // Whether the descriptor at a place is a PPI's.
    pub(crate) fn is_ppi(&self, place: u64) -> bool
        ensures { result ≡ is_ppi (kind_at (state_of self.now) place) }
    {
        match self.kind_at(place) {
            DescKind::Ppi => true,
            DescKind::Callback => false,
            DescKind::Dispatch => false,
        }
    }

    // Whether all of a list are PPIs.
    fn are_ppis(&self, list: &[Desc]) -> bool
        ensures { result ≡ list_all (λ d. is_ppi (kind_at (state_of self.now) d.offset)) list.now }
    {
        'descs: for d in list {
            if !self.is_ppi(d.offset) {
                return false;
            }
        }
        true
    }

    // The pairs of PPIs with all dispatch notifications.
    fn dispatch_pairs(&self, list: &[Desc]) -> Result<Vec<(u64, u64)>, OutOfMemory>
        ensures { IfOk result (λ pairs. pairs.items ≡ install_pairs (state_of self.now) list.now) }
    {
        let alloc = *self.hobs.allocator();
        let ppis = offsets(alloc, list)?;
        let notes = descriptors(alloc, self.dispatches.as_slice())?;
        self.pairs_of(ppis.as_slice(), notes.as_slice())
    }

    // Adds PPIs and the pairs, for which there is room. If memory runs out, nothing changes.
    fn put_ppis(
        &mut self,
        list: &[Desc],
        pairs: &[(u64, u64)],
        by: u32,
    ) -> Result<Sweep, OutOfMemory>
        requires few { AreFew list.now }
        requires pairs { pairs.now ≡ install_pairs (state_of self.old) list.now }
        requires room { node_need (length list.now) + node_need (length pairs.now) ≤ free (state_of self.old) }
        ensures sweep { IfOk result (λ sweep. sweep ≡ install_sweep (state_of self.old) list.now) }
        ensures state { OnOk result (state_of self.new ≡ installed (state_of self.old) list.now by) }
        ensures err { OnErr result (state_of self.new ≡ state_of self.old) }
    {
        let at = self.ppis.len();
        let sweep = sweep_from(at, at + list.len(), 0, self.callbacks.len())?;
        self.reserve(list.len(), pairs.len())?;
        self.add_ppis(list, by);
        self.add_pendings(pairs, by);
        Ok(sweep)
    }

    // Installs PPIs, in the order of the list.
    pub(crate) fn install_ppis(&mut self, list: &[Desc], by: u32) -> Result<Sweep, StoreFault>
        requires { AreFew list.now }
        ensures { Answers true (install (state_of self.old) list.now by) (state_of self.old) result (state_of self.new) }
    {
        if !self.are_ppis(list) {
            return Err(StoreFault::Bad);
        }
        let pairs = match self.dispatch_pairs(list) {
            Ok(pairs) => pairs,
            Err(OutOfMemory) => return Err(StoreFault::Memory),
        };
        if !self.has_room(list.len(), pairs.len()) {
            return Err(StoreFault::Full);
        }
        Ok(self.put_ppis(list, pairs.as_slice(), by)?)
    }

    // The place of the first PPI that names a descriptor.
    fn place_of(&self, descriptor: u64) -> Option<usize>
        ensures place { IfSome result (λ place. place ≡ place_of self.now.ppis.items descriptor) }
        ensures inside { IfSome result (λ place. place < length self.now.ppis.items) }
        ensures there { IfSome result (λ _. is_installed (state_of self.now) (record { offset = descriptor }) ≡ true) }
        ensures none { IfNone result (is_installed (state_of self.now) (record { offset = descriptor }) ≡ false) }
    {
        'ppis: for place in 0..self.ppis.len() {
            if self.ppis[place].descriptor == descriptor {
                return Some(place);
            }
        }
        None
    }

    // The PPI in a place names another descriptor.
    fn rename(&mut self, place: usize, new: Desc)
        requires { place < length self.old.ppis.items }
        ensures state { (old : ℕ) → place ≡ place_of self.old.ppis.items old
            → state_of self.new ≡ record (state_of self.old) { ppis = renamed self.old.ppis.items old new.offset } }
        ensures nodes { (n : ℕ) → HasNodes self.old n → HasNodes self.new n }
        ensures pendings { self.new.pendings ≡ self.old.pendings }
    {
        self.ppis[place].descriptor = new.offset;
    }

    // Replaces a PPI by another, and adds the pairs, for which there is room. If memory runs out, nothing changes.
    fn put_again(
        &mut self,
        place: usize,
        new: Desc,
        pairs: &[(u64, u64)],
        by: u32,
    ) -> Result<Sweep, OutOfMemory>
        requires inside { place < length self.old.ppis.items }
        requires pairs { pairs.now ≡ reinstall_pairs (state_of self.old) new }
        requires room { node_need (length pairs.now) ≤ free (state_of self.old) }
        ensures sweep { (old : Desc) → place ≡ place_of self.old.ppis.items old.offset
            → IfOk result (λ sweep. sweep ≡ reinstall_sweep (state_of self.old) old) }
        ensures state { (old : Desc) → place ≡ place_of self.old.ppis.items old.offset
            → OnOk result (state_of self.new ≡ reinstalled (state_of self.old) old new by) }
        ensures err { OnErr result (state_of self.new ≡ state_of self.old) }
    {
        let sweep = sweep_from(place, place + 1, 0, self.callbacks.len())?;
        self.reserve(0, pairs.len())?;
        self.rename(place, new);
        self.add_pendings(pairs, by);
        Ok(sweep)
    }

    // Replaces a PPI by another.
    pub(crate) fn reinstall_ppi(
        &mut self,
        old: Desc,
        new: Desc,
        by: u32,
    ) -> Result<Sweep, StoreFault>
        ensures { Answers true (reinstall (state_of self.old) old new by) (state_of self.old) result (state_of self.new) }
    {
        if !self.is_ppi(new.offset) {
            return Err(StoreFault::Bad);
        }
        let Some(place) = self.place_of(old.offset) else {
            return Err(StoreFault::Missing);
        };
        let pairs = self.dispatch_pairs(&[new])?;
        if !self.has_room(0, pairs.len()) {
            return Err(StoreFault::Full);
        }
        Ok(self.put_again(place, new, pairs.as_slice(), by)?)
    }

    // Installs the PPI of permanent memory, with its descriptor, or does neither.
    pub(crate) fn install_memory_ppi(&mut self) -> Result<Sweep, StoreFault>
        ensures { Answers true (core_install (state_of self.old)) (state_of self.old) result (state_of self.new) }
    {
        let end = self.end;
        let d = match self.make_desc(DescKind::Ppi, GuidFrom::Inline(MEMORY_PPI), 0) {
            Ok(d) => d,
            Err(StoreFault::Memory) => return Err(StoreFault::Memory),
            Err(_) => return Err(StoreFault::Full),
        };
        match self.install_ppis(&[d], CORE) {
            Ok(sweep) => Ok(sweep),
            Err(fault) => {
                self.hobs.pop();
                self.end = end;
                match fault {
                    StoreFault::Memory => Err(StoreFault::Memory),
                    _ => Err(StoreFault::Full),
                }
            }
        }
    }
}
