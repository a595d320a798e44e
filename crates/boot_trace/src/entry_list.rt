//! The entries of a store's lists, each as a line.
ghost use Rattle.std.specs.Prelude.{◌≡◌, ◌≢◌, ◌<◌, ◌/◌, ◌%◌, length};
ghost use Rattle.boot_model.specs.declared.frame.TheConstants.{BLOCKS};
ghost use Rattle.store_model.specs.{declared.limits.TheConstants.NOTE_NUMBERS, declared.store_handle.EntryList.TheVariants.Ppis};
ghost use Rattle.store_model.specs.{Service.Present, Service.OfEach, Service.Reading.told_of, StoreCall.Anything};
ghost use Rattle.boot_trace.specs.EntryLines.{count_line, told_line};

use boot_model::{BLOCKS, Line};
use store_laws::entries_are_told;
use store_model::{EntryList, EntryTold, PeiStore};

// The line of a list's count.
pub(crate) fn count_line(list: EntryList, count: u32) -> Line
    ensures { result ≡ count_line list count }
{
    match list {
        EntryList::Ppis => Line::Ppis { count },
        EntryList::Callbacks => Line::Callbacks { count },
        EntryList::Dispatches => Line::Dispatches { count },
        EntryList::Pendings => Line::Pendings { count },
    }
}

// Module and block of a notification's entry.
fn block_of(entry: u64) -> (u32, u32)
    requires { entry < NOTE_NUMBERS }
    ensures { result ≡ (entry / BLOCKS, entry % BLOCKS) }
{
    let entry = entry as u32;
    (entry / BLOCKS, entry % BLOCKS)
}

// The line of an entry that is told.
pub(crate) fn told_line(list: EntryList, told: EntryTold) -> Line
    requires number { list ≢ Ppis → told.number < NOTE_NUMBERS }
    ensures { result ≡ told_line list told }
{
    let EntryTold {
        guid,
        number,
        by,
        ..
    } = told;
    match list {
        EntryList::Ppis => Line::Ppi {
            by,
            guid,
            value: number,
        },
        EntryList::Callbacks => {
            let (by, block) = block_of(number);
            Line::Callback { guid, by, block }
        }
        EntryList::Dispatches => {
            let (by, block) = block_of(number);
            Line::Dispatch { guid, by, block }
        }
        EntryList::Pendings => {
            let (by, block) = block_of(number);
            Line::Pending { guid, by, block }
        }
    }
}

// How many entries a list has.
pub(crate) fn entry_count<M: PeiStore>(store: &M, list: EntryList) -> u32
    requires state { Present (M.stands_for store.now) Anything }
    ensures row { OfEach (M.stands_for store.now) Anything (λ s. result ≡ length (told_of s list)) }
{
    entries_are_told();
    let mut count = 0;
    let mut node = None;
    'entries: while let Some(told) = store.entry_behind(list, node) {
        count += 1;
        node = Some(told.node);
    }
    count
}

/// How many PPIs are installed.
pub fn count_ppis<M: PeiStore>(store: &M) -> u32
    requires state { Present (M.stands_for store.now) Anything }
    ensures row { OfEach (M.stands_for store.now) Anything (λ s. result ≡ length s.ppis) }
{
    entry_count(store, EntryList::Ppis)
}
