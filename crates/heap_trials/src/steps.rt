// The steps of a trial: calls of any store with their answers, and what can be read of it.
ghost use Rattle.std.specs.Prelude.{IfOk};
ghost use Rattle.store_model.specs.{Service.Present, StoreCall.Anything, StoreCall.HasPool};

use crate::calls::{
    core_install, create, desc, install_new, migrate, notify_new, pages, plan, pool, pop,
    set_boot_mode,
};
use crate::scene::INLINE;
use hob_codec::Hob;
use pi_base::Guid;
use store_model::{Desc, DescKind, EntryList, EntryTold, Firing, PeiStore, Pool, StoreFault};

/// A call with its answer, or a reading.
pub(crate) enum Step {
    /// A pool of so many bytes.
    Pool(u32, Result<Pool, StoreFault>),
    /// A pool of so many bytes, and whether it fits.
    Fit(u32, bool),
    /// A new pool of nine bytes, and two bytes at a place in it: whether they are written.
    Write(u32, Option<bool>),
    /// So many pages.
    Pages(u32, Result<u64, StoreFault>),
    /// The HOB of a CPU.
    Cpu(Result<u64, StoreFault>),
    /// A GUID HOB with a body of at most 16 bytes.
    Named(&'static [u8], Result<u64, StoreFault>),
    /// The HOB of a volume at a base.
    Volume(u64, Result<u64, StoreFault>),
    /// A PPI's descriptor with a value.
    Desc(u64, Result<Desc, StoreFault>),
    /// A PPI with a value, with its descriptor.
    Install(u64, Option<Desc>),
    /// A dispatch notification with the entry 3, with its descriptor.
    Notify(Option<Desc>),
    /// The first queued pair leaves.
    Pop(Option<Firing>),
    /// Permanent memory, by its base and its length.
    Plan(u64, u64, Result<(), StoreFault>),
    /// The move, if it is due.
    Migrate(Option<(u64, u64)>),
    /// The PPI of permanent memory, which is installed.
    CoreInstall,
    /// Another boot mode.
    SetMode(u32),
    /// The boot mode.
    Mode(u32),
    /// The bytes at an address.
    Bytes(u64, &'static [u8]),
    /// An address at which nothing is read.
    Unread(u64),
    /// Whether four bytes are read at an address, and what the four are then.
    Four(u64, (bool, [u8; 4])),
    /// The bases of the volumes.
    Bases(&'static [u64]),
    /// The PPI at a place.
    Ppi(u32, Option<(Guid, u64, u32)>),
    /// The notification of a kind at a place.
    Note(DescKind, u32, Option<(Guid, u32)>),
    /// The queued pair at a place.
    Pending(u32, Option<(Guid, u32)>),
    /// The first two entries of a list.
    Entries(EntryList, (Option<EntryTold>, Option<EntryTold>)),
    /// The PPI of a GUID after so many others of it.
    Nth(Guid, u16, Option<(Desc, u64)>),
}

// Whether a store reads these bytes at an address.
fn tells<S: PeiStore>(store: &S, at: u64, want: &[u8]) -> bool
    requires { Present (S.stands_for store.now) Anything }
{
    let mut bytes = [0u8; 144];
    let n = want.len();
    if n > bytes.len() {
        return false;
    }
    store.peek(at, &mut bytes.as_mut_slice()[..n]) && &bytes.as_slice()[..n] == want
}

// Four bytes at an address, if they are read, and whether nothing was written if not.
fn four_at<S: PeiStore>(store: &S, at: u64) -> (bool, [u8; 4])
    requires { Present (S.stands_for store.now) Anything }
{
    let mut bytes = [0xff; 4];
    (store.peek(at, &mut bytes), bytes)
}

// Whether these are the bases of the volumes.
fn has_bases<S: PeiStore>(store: &S, wants: &[u64]) -> bool
    requires { Present (S.stands_for store.now) Anything }
{
    match store.fv_bases() {
        Ok(found) => found.as_slice() == wants,
        Err(_) => false,
    }
}

// The first entry of a list, and the one after it.
fn first_entries<S: PeiStore>(store: &S, list: EntryList) -> (Option<EntryTold>, Option<EntryTold>)
    requires { Present (S.stands_for store.now) Anything }
{
    let first = store.entry_behind(list, None);
    match first {
        Some(told) => (first, store.entry_behind(list, Some(told.node))),
        None => (None, None),
    }
}

// Whether a reading is as the step says.
fn is_told<S: PeiStore>(store: &S, step: &Step) -> bool
    requires { Present (S.stands_for store.now) Anything }
{
    match step {
        Step::Mode(want) => store.boot_mode() == *want,
        Step::Bytes(at, want) => tells(store, *at, want),
        Step::Unread(at) => !store.peek(*at, &mut [0]),
        Step::Four(at, want) => four_at(store, *at) == *want,
        Step::Bases(want) => has_bases(store, want),
        Step::Ppi(place, want) => store.ppi_at(*place) == *want,
        Step::Note(kind, place, want) => store.note_at(*kind, *place) == *want,
        Step::Pending(place, want) => store.pending_at(*place) == *want,
        Step::Entries(list, want) => first_entries(store, *list) == *want,
        Step::Nth(guid, n, want) => store.nth_ppi(guid, *n) == *want,
        _ => false,
    }
}

// Whether a call on the lists, the move or the boot mode has this answer, or a reading is as the step says.
fn is_listed<S: PeiStore>(store: &mut S, step: &Step) -> bool
    requires { Present (S.stands_for store.old) Anything }
    ensures { Present (S.stands_for store.new) Anything }
{
    match step {
        Step::Install(value, want) => install_new(store, INLINE, *value) == *want,
        Step::Notify(want) => notify_new(store, INLINE, 3) == *want,
        Step::Pop(want) => pop(store) == *want,
        Step::Plan(base, len, want) => plan(store, *base, *len) == *want,
        Step::Migrate(want) => migrate(store) == *want,
        Step::CoreInstall => core_install(store).is_ok(),
        Step::SetMode(mode) => {
            set_boot_mode(store, *mode);
            true
        }
        _ => is_told(store, step),
    }
}

// A new pool that may be written.
fn new_pool<S: PeiStore>(store: &mut S, size: u32) -> Result<Pool, StoreFault>
    requires { Present (S.stands_for store.old) Anything }
    ensures state { Present (S.stands_for store.new) Anything }
    ensures made { IfOk result (λ pool. Present (S.stands_for store.new) (HasPool pool)) }
{
    store.pool(size)
}

// Makes a pool of nine bytes and writes two bytes into it. None if there is no pool, else whether they are written.
fn write_two<S: PeiStore>(store: &mut S, at: u32) -> Option<bool>
    requires { Present (S.stands_for store.old) Anything }
    ensures { Present (S.stands_for store.new) Anything }
{
    match new_pool(store, 9) {
        Ok(pool) => Some(store.store(pool, at, b"ab")),
        Err(_) => None,
    }
}

// Makes a GUID HOB. None if its body has more than 16 bytes.
fn create_named<S: PeiStore>(store: &mut S, body: &[u8]) -> Option<Result<u64, StoreFault>>
    requires { Present (S.stands_for store.old) Anything }
    ensures { Present (S.stands_for store.new) Anything }
{
    if body.len() > 16 {
        return None;
    }
    let name = Guid(*b"0123456789abcdef");
    Some(create(store, &Hob::Named { name, body }))
}

// Whether a step is answered so.
fn is_answered<S: PeiStore>(store: &mut S, step: &Step) -> bool
    requires { Present (S.stands_for store.old) Anything }
    ensures { Present (S.stands_for store.new) Anything }
{
    match step {
        Step::Pool(size, want) => pool(store, *size) == *want,
        Step::Fit(size, fits) => pool(store, *size).is_ok() == *fits,
        Step::Write(at, want) => write_two(store, *at) == *want,
        Step::Pages(count, want) => pages(store, (*count).max(1)) == *want,
        Step::Cpu(want) => create(store, &Hob::Cpu { memory: 48, io: 16 }) == *want,
        Step::Named(body, want) => create_named(store, body) == Some(*want),
        Step::Volume(base, want) => {
            let length = 0x1000;
            create(
                store,
                &Hob::Volume {
                    base: *base,
                    length,
                },
            ) == *want
        }
        Step::Desc(value, want) => desc(store, DescKind::Ppi, INLINE, *value) == *want,
        _ => is_listed(store, step),
    }
}

/// Whether steps are answered so, one after another.
pub(crate) fn are_answered<S: PeiStore>(store: &mut S, steps: &[Step]) -> bool
    requires { Present (S.stands_for store.old) Anything }
{
    'steps: for step in steps {
        if !is_answered(store, step) {
            return false;
        }
    }
    true
}
