// Calls of any store. After each the store still stands for a state, so the next may follow.
ghost use Rattle.std.specs.Prelude.{◌≤◌, IfOk};
ghost use Rattle.hob_codec.specs.HobView.{hob_value};
ghost use Rattle.store_model.specs.{Service.Present, StateFacts.IsNumberOf, StoreCall.Anything, StoreCall.IsScriptHob};
ghost use Rattle.store_model.specs.declared.store_handle.DescKind.TheVariants.{Dispatch};
ghost use Rattle.heap_trials.specs.Scene.{HasDesc};

use hob_codec::Hob;
use pi_base::Span;
use store_model::{Desc, DescKind, Firing, GuidFrom, PeiStore, Pool, StoreFault, Sweep};

/// The number of the module whose script calls.
pub(crate) const MAKER: u32 = 9;

// The type of memory that the pages have. UEFI, `EFI_MEMORY_TYPE`.
const BOOT_SERVICES_DATA: u32 = 4;

pub(crate) fn pool<S: PeiStore>(store: &mut S, size: u32) -> Result<Pool, StoreFault>
    requires { Present (S.stands_for store.old) Anything }
    ensures { Present (S.stands_for store.new) Anything }
{
    store.pool(size)
}

/// Takes pages.
pub(crate) fn pages<S: PeiStore>(store: &mut S, count: u32) -> Result<u64, StoreFault>
    requires state { Present (S.stands_for store.old) Anything }
    requires some { 1 ≤ count }
    ensures { Present (S.stands_for store.new) Anything }
{
    store.pages(BOOT_SERVICES_DATA, count)
}

/// Makes a HOB.
pub(crate) fn create<S: PeiStore>(store: &mut S, hob: &Hob<'_>) -> Result<u64, StoreFault>
    requires state { Present (S.stands_for store.old) Anything }
    requires hob { IsScriptHob (hob_value hob.now) }
    ensures { Present (S.stands_for store.new) Anything }
{
    store.create_hob(hob)
}

/// Makes a descriptor.
pub(crate) fn desc<S: PeiStore>(
    store: &mut S,
    kind: DescKind,
    guid: GuidFrom,
    number: u64,
) -> Result<Desc, StoreFault>
    requires state { Present (S.stands_for store.old) Anything }
    requires number { IsNumberOf kind number }
    ensures state { Present (S.stands_for store.new) Anything }
    ensures made { IfOk result (λ d. Present (S.stands_for store.new) (HasDesc d)) }
{
    store.desc(kind, guid, number)
}

// Installs a PPI. Returns false if that is refused.
fn installs<S: PeiStore>(store: &mut S, d: Desc) -> bool
    requires { Present (S.stands_for store.old) (HasDesc d) }
    ensures { Present (S.stands_for store.new) (HasDesc d) }
{
    store.install(&[d], MAKER).is_ok()
}

/// Makes a PPI's descriptor and installs it. None if either is refused.
pub(crate) fn install_new<S: PeiStore>(store: &mut S, guid: GuidFrom, value: u64) -> Option<Desc>
    requires { Present (S.stands_for store.old) Anything }
    ensures { Present (S.stands_for store.new) Anything }
{
    match desc(store, DescKind::Ppi, guid, value) {
        Ok(d) => installs(store, d).then_some(d),
        Err(_) => None,
    }
}

/// Makes a dispatch notification's descriptor and registers it. None if either is refused.
pub(crate) fn notify_new<S: PeiStore>(store: &mut S, guid: GuidFrom, entry: u64) -> Option<Desc>
    requires state { Present (S.stands_for store.old) Anything }
    requires entry { IsNumberOf Dispatch entry }
    ensures { Present (S.stands_for store.new) Anything }
{
    match desc(store, DescKind::Dispatch, guid, entry) {
        Ok(d) => store.notify(&[d], MAKER).is_ok().then_some(d),
        Err(_) => None,
    }
}

/// The first queued pair leaves.
pub(crate) fn pop<S: PeiStore>(store: &mut S) -> Option<Firing>
    requires { Present (S.stands_for store.old) Anything }
    ensures { Present (S.stands_for store.new) Anything }
{
    store.queue_pop()
}

/// Reports where permanent memory is.
pub(crate) fn plan<S: PeiStore>(store: &mut S, begin: u64, len: u64) -> Result<(), StoreFault>
    requires { Present (S.stands_for store.old) Anything }
    ensures { Present (S.stands_for store.new) Anything }
{
    store.set_memory(begin, len)
}

/// Moves to permanent memory. None if no move is due.
pub(crate) fn migrate<S: PeiStore>(store: &mut S) -> Option<(u64, u64)>
    requires { Present (S.stands_for store.old) Anything }
    ensures { Present (S.stands_for store.new) Anything }
{
    if !store.memory_due() {
        return None;
    }
    Some(store.migrate())
}

/// Plans permanent memory and moves there. None if it is not planned.
pub(crate) fn move_to<S: PeiStore>(store: &mut S, to: Span) -> Option<(u64, u64)>
    requires { Present (S.stands_for store.old) Anything }
    ensures { Present (S.stands_for store.new) Anything }
{
    match plan(store, to.base, to.len) {
        Ok(()) => migrate(store),
        Err(_) => None,
    }
}

/// The core installs the PPI of permanent memory.
pub(crate) fn core_install<S: PeiStore>(store: &mut S) -> Result<Sweep, StoreFault>
    requires { Present (S.stands_for store.old) Anything }
    ensures { Present (S.stands_for store.new) Anything }
{
    store.core_install()
}

pub(crate) fn set_boot_mode<S: PeiStore>(store: &mut S, mode: u32)
    requires { Present (S.stands_for store.old) Anything }
    ensures { Present (S.stands_for store.new) Anything }
{
    store.set_boot_mode(mode);
}

// Eight bytes at an address, as a number. 0 if they are not read.
fn word_at<S: PeiStore>(store: &S, at: u64) -> u64
    requires { Present (S.stands_for store.now) Anything }
{
    let mut bytes = [0u8; 8];
    store.peek(at, &mut bytes);
    u64::from_le_bytes(bytes)
}

/// How many bytes are free: the hand-off HOB's EfiFreeMemoryTop less its EfiFreeMemoryBottom.
pub(crate) fn free<S: PeiStore>(store: &S) -> u64
    requires { Present (S.stands_for store.now) Anything }
{
    let base = store.base();
    let top = word_at(store, base.wrapping_add(32));
    top.wrapping_sub(word_at(store, base.wrapping_add(40)))
}
