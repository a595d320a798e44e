//! What the PEI core uses of a store.
ghost use Rattle.std.specs.Prelude.{◌≡◌, ◌≤◌, Bool, IfOk, length};
ghost use Rattle.pi_base.specs.declared.guid.Guid.{Guid};
ghost use Rattle.hob_codec.specs.HobView.{hob_value};
ghost use Rattle.store_model.specs.MemoryReading as At;
ghost use Rattle.store_model.specs.StoreState.{StoreState};
ghost use Rattle.store_model.specs.StateFacts.{IsStoreState, IsDesc, IsNumberOf};
ghost use Rattle.store_model.specs.Service.{AfterEach, Performs, Takes, Stores, Present, And, OfEach};
ghost use Rattle.store_model.specs.StoreCall.{Anything, AreBothDescs, AreDescs, AreFew, HasPool, IsAmong, IsScriptHob, IsHobPlace, IsNodeIn, IsDue, IsMatch, Migrates, Peeks};
ghost use Rattle.store_model.specs.Service.Pool as P;
ghost use Rattle.store_model.specs.Service.Descriptor as D;
ghost use Rattle.store_model.specs.Service.Install as I;
ghost use Rattle.store_model.specs.Service.Notify as N;
ghost use Rattle.store_model.specs.Service.Sweep as W;
ghost use Rattle.store_model.specs.Service.Queue as Q;
ghost use Rattle.store_model.specs.Service.Reading as R;
ghost use Rattle.store_model.specs.Service.Hob as H;
ghost use Rattle.store_model.specs.Service.Memory as M;

use crate::store_handle::{
    Desc, DescKind, EntryList, EntryTold, Firing, GuidFrom, HobSpan, Pool, StoreFault, Sweep,
};
use depex_code::GuidSet;
use hob_codec::Hob;
use pi_base::{Guid, OutOfMemory, Seq};

/// A store, known by the states that it stands for. Each call promises, for every such state: it returns what the service returns in that state, and the store
/// then stands for the state after. A refusal leaves the state unchanged. `by` is the number of the module whose script calls.
pub trait PeiStore: GuidSet {
    /// Whether a call may allocate memory. If not, no call returns `Memory`.
    const TAKES_MEMORY: bool;

    ghost TAKES_MEMORY: { Bool };

    /// The states that the store stands for.
    ghost stands_for: { Self → StoreState → Type 0 };

    /// A pool of zeros (PI 1.8, volume 1, `AllocatePool()`).
    fn pool(&mut self, size: u32) -> Result<Pool, StoreFault>
        requires state { Present (stands_for self.old) Anything }
        ensures row { Performs TAKES_MEMORY (stands_for self.old) (stands_for self.new) (λ s. P.pool s size) result };

    /// Writes bytes into a pool, at an offset of its body. Returns false, and writes nothing, if they pass the size that was asked for.
    fn store(&mut self, pool: Pool, at: u32, bytes: &[u8]) -> bool
        requires state { Present (stands_for self.old) (HasPool pool) }
        ensures row { AfterEach (And (stands_for self.old) (HasPool pool)) (stands_for self.new)
            (λ s new. Stores (P.store s pool at bytes.now) s result new) };

    /// A descriptor that nothing names yet. `arg` is a PPI's value, or a notification's entry.
    fn desc(&mut self, kind: DescKind, guid: GuidFrom, arg: u64) -> Result<Desc, StoreFault>
        requires state { Present (stands_for self.old) Anything }
        requires arg { IsNumberOf kind arg }
        ensures row { Performs TAKES_MEMORY (stands_for self.old) (stands_for self.new) (λ s. D.desc s kind guid arg) result };

    /// Installs PPIs, in the order of the list (PI 1.8, volume 1, `InstallPpi()`).
    fn install(&mut self, list: &[Desc], by: u32) -> Result<Sweep, StoreFault>
        requires state { Present (stands_for self.old) (AreDescs list.now) }
        requires few { AreFew list.now }
        ensures row { Performs TAKES_MEMORY (And (stands_for self.old) (AreDescs list.now)) (stands_for self.new)
            (λ s. I.install s list.now by) result };

    /// Replaces a PPI by another (PI 1.8, volume 1, `ReInstallPpi()`).
    fn reinstall(&mut self, old: Desc, new: Desc, by: u32) -> Result<Sweep, StoreFault>
        requires state { Present (stands_for self.old) (AreBothDescs old new) }
        ensures row { Performs TAKES_MEMORY (And (stands_for self.old) (AreBothDescs old new)) (stands_for self.new)
            (λ s. I.reinstall s old new by) result };

    /// Registers notifications, in the order of the list (PI 1.8, volume 1, `NotifyPpi()`).
    fn notify(&mut self, list: &[Desc], by: u32) -> Result<Sweep, StoreFault>
        requires state { Present (stands_for self.old) (AreDescs list.now) }
        requires few { AreFew list.now }
        ensures row { Performs TAKES_MEMORY (And (stands_for self.old) (AreDescs list.now)) (stands_for self.new)
            (λ s. N.notify s list.now by) result };

    /// The next pair of the sweep that fires now. The sweep then continues after it. None if no pair is left.
    fn next_match(&self, sweep: &mut Sweep) -> Option<Firing>
        requires state { Present (stands_for self.now) (IsAmong sweep.old) }
        ensures row { OfEach (stands_for self.now) (IsAmong sweep.old) (λ s. IsMatch (W.next_match s sweep.old) result sweep.new) };

    /// Removes the first queued pair and returns it. None if the queue is empty.
    fn queue_pop(&mut self) -> Option<Firing>
        requires state { Present (stands_for self.old) Anything }
        ensures row { AfterEach (stands_for self.old) (stands_for self.new) (λ old new. Takes (Q.queue_pop old) old result new) };

    /// The n-th PPI of a GUID, from 0, and its value (PI 1.8, volume 1, `LocatePpi()`).
    fn nth_ppi(&self, guid: &Guid, n: u16) -> Option<(Desc, u64)>
        requires state { Present (stands_for self.now) Anything }
        ensures row { OfEach (stands_for self.now) Anything (λ s. result ≡ R.nth_ppi s guid.now n) };

    /// The GUID, the value and the module of the PPI at a place of its list, from 0. None past the last.
    fn ppi_at(&self, place: u32) -> Option<(Guid, u64, u32)>
        requires state { Present (stands_for self.now) Anything }
        ensures row { OfEach (stands_for self.now) Anything (λ s. result ≡ R.ppi_at s place) };

    /// The GUID and the entry of the notification at a place of its kind's list, from 0. None past the last.
    fn note_at(&self, kind: DescKind, place: u32) -> Option<(Guid, u32)>
        requires state { Present (stands_for self.now) Anything }
        ensures row { OfEach (stands_for self.now) Anything (λ s. result ≡ R.note_at s kind place) };

    /// The PPI's GUID and the notification's entry of the queued pair at a place, from 0. None past the last.
    fn pending_at(&self, place: u32) -> Option<(Guid, u32)>
        requires state { Present (stands_for self.now) Anything }
        ensures row { OfEach (stands_for self.now) Anything (λ s. result ≡ R.pending_at s place) };

    /// GUID and number of a descriptor: a PPI's value, or a notification's entry.
    fn descriptor(&self, d: Desc) -> (Guid, u64)
        requires state { Present (stands_for self.now) (λ s. IsDesc s d) }
        ensures row { OfEach (stands_for self.now) (λ s. IsDesc s d) (λ s. result ≡ R.descriptor s d) };

    /// The entry of a list after the one with this node, or the first entry if no node is given. None after the last.
    fn entry_behind(&self, list: EntryList, node: Option<u64>) -> Option<EntryTold>
        requires state { Present (stands_for self.now) (IsNodeIn list node) }
        ensures row { OfEach (stands_for self.now) (IsNodeIn list node) (λ s. result ≡ R.entry_behind s list node) };

    /// Makes a HOB and answers its address (PI 1.8, volume 1, `CreateHob()`).
    fn create_hob(&mut self, hob: &Hob) -> Result<u64, StoreFault>
        requires state { Present (stands_for self.old) Anything }
        requires hob { IsScriptHob (hob_value hob.now) }
        ensures row { Performs TAKES_MEMORY (stands_for self.old) (stands_for self.new) (λ s. H.create_hob s (hob_value hob.now)) result };

    /// Reports where permanent memory is (PI 1.8, volume 1, `InstallPeiMemory()`). The store moves there later, by `migrate`.
    fn set_memory(&mut self, begin: u64, len: u64) -> Result<(), StoreFault>
        requires state { Present (stands_for self.old) Anything }
        ensures row { Performs TAKES_MEMORY (stands_for self.old) (stands_for self.new) (λ s. M.set_memory s begin len) result };

    /// Whether memory was planned and not yet moved to.
    fn memory_due(&self) -> bool
        requires state { Present (stands_for self.now) Anything }
        ensures row { OfEach (stands_for self.now) Anything (λ s. result ≡ R.memory_due s) };

    /// Whether the store has moved.
    fn moved(&self) -> bool
        requires state { Present (stands_for self.now) Anything }
        ensures row { OfEach (stands_for self.now) Anything (λ s. result ≡ s.moved) };

    /// Moves to permanent memory, and answers the old base and the new.
    fn migrate(&mut self) -> (u64, u64)
        requires state { Present (stands_for self.old) IsDue }
        ensures row { AfterEach (And (stands_for self.old) IsDue) (stands_for self.new) (λ old new. Migrates old result new) };

    /// The core installs the PPI of permanent memory.
    fn core_install(&mut self) -> Result<Sweep, StoreFault>
        requires state { Present (stands_for self.old) Anything }
        ensures row { Performs TAKES_MEMORY (stands_for self.old) (stands_for self.new) I.core_install result };

    /// Takes pages and answers the address of the lowest (PI 1.8, volume 1, `AllocatePages()`).
    fn pages(&mut self, memory_type: u32, count: u32) -> Result<u64, StoreFault>
        requires state { Present (stands_for self.old) Anything }
        requires some { 1 ≤ count }
        ensures row { Performs TAKES_MEMORY (stands_for self.old) (stands_for self.new) (λ s. M.pages s memory_type count) result };

    /// The boot mode (PI 1.8, volume 1, `GetBootMode()`).
    fn boot_mode(&self) -> u32
        requires state { Present (stands_for self.now) Anything }
        ensures row { OfEach (stands_for self.now) Anything (λ s. result ≡ s.boot_mode) };

    /// Sets the boot mode (PI 1.8, volume 1, `SetBootMode()`).
    fn set_boot_mode(&mut self, mode: u32)
        requires state { Present (stands_for self.old) Anything }
        ensures row { AfterEach (stands_for self.old) (stands_for self.new) (λ old new. new ≡ M.with_boot_mode old mode) };

    /// The heap's base. The address of a pool or a descriptor is the base plus its offset.
    fn base(&self) -> u64
        requires state { Present (stands_for self.now) Anything }
        ensures row { OfEach (stands_for self.now) Anything (λ s. result ≡ s.base) };

    /// Reads bytes at a physical address. Returns false, and reads nothing, if no single mapped region has all of them.
    fn peek(&self, at: u64, into: &mut [u8]) -> bool
        requires state { Present (stands_for self.now) Anything }
        ensures row { OfEach (stands_for self.now) Anything (λ s. Peeks (At.bytes_at s at (length into.old)) result into.old into.new) };

    /// The HOB at an offset from the heap's base. None at the end HOB.
    fn hob_at(&self, offset: u64) -> Option<HobSpan>
        requires state { Present (stands_for self.now) (IsHobPlace offset) }
        ensures row { OfEach (stands_for self.now) (IsHobPlace offset) (λ s. result ≡ R.hob_at s offset) };

    /// The bases of the volumes that FV HOBs report, in order.
    fn fv_bases(&self) -> Result<Seq<u64>, OutOfMemory>
        requires state { Present (stands_for self.now) Anything }
        ensures row { OfEach (stands_for self.now) Anything (λ s. IfOk result (λ bases. bases ≡ R.fv_bases s)) };

    // A store that stands for a state is well formed.
    ghost ordered: { (store : Self) (s : StoreState) → stands_for store s → Self.GuidSet.in_order store };

    // Its GUIDs are those of the installed PPIs.
    ghost knows: { (store : Self) (s : StoreState) → stands_for store s → (guid : Guid)
        → Self.GuidSet.has_guid store guid ≡ I.has_ppi s guid };

    // The states that it stands for have all facts that hold of every state.
    ghost facts: { (store : Self) (s : StoreState) → stands_for store s → IsStoreState s };
}
