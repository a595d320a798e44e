//! The lists of a store, each after its count.
ghost use Rattle.std.specs.Prelude.{◌≡◌, flat_map, length};
ghost use Rattle.boot_io.specs.Sink.{Puts, SinkFaultsAfter};
ghost use Rattle.store_model.specs.{Service.Present, Service.OfEach, Service.Reading.told_of, StoreCall.Anything};
ghost use Rattle.boot_model.specs.{Text.text_of, Listing.store_lines};
ghost use Rattle.boot_trace.specs.EntryLines.{entry_lines, list_text};

use crate::entry_list::{count_line, entry_count, told_line};
use crate::line::put_made;
use crate::store_hobs::put_hobs;
use boot_io::{Sink, SinkFault};
use store_laws::entries_are_told;
use store_model::{EntryList, PeiStore};

// The lists of entries, in the order of printing.
const ENTRY_LISTS: [EntryList; 4] = [
    EntryList::Ppis,
    EntryList::Callbacks,
    EntryList::Dispatches,
    EntryList::Pendings,
];

// The entries of a list, of which there are `count`.
fn put_entries<S: Sink, M: PeiStore>(
    sink: &mut S,
    store: &M,
    list: EntryList,
    count: u32,
) -> Result<(), SinkFault>
    requires state { Present (M.stands_for store.now) Anything }
    requires count { OfEach (M.stands_for store.now) Anything (λ s. count ≡ length (told_of s list)) }
    ensures text { OfEach (M.stands_for store.now) Anything (λ s. Puts result (S.text sink.old) (S.text sink.new)
        (text_of (entry_lines s list))) }
    ensures cause { SinkFaultsAfter result (S.faults sink.old) (S.faults sink.new) }
{
    entries_are_told();
    let mut node = None;
    'entries: for _place in 0..count {
        let Some(told) = store.entry_behind(list, node) else {
            return Ok(());
        };
        put_made(sink, told_line(list, told))?;
        node = Some(told.node);
    }
    Ok(())
}

// A list, after its count.
fn put_list<S: Sink, M: PeiStore>(sink: &mut S, store: &M, list: EntryList) -> Result<(), SinkFault>
    requires state { Present (M.stands_for store.now) Anything }
    ensures text { OfEach (M.stands_for store.now) Anything (λ s. Puts result (S.text sink.old) (S.text sink.new) (list_text s list)) }
    ensures cause { SinkFaultsAfter result (S.faults sink.old) (S.faults sink.new) }
{
    let count = entry_count(store, list);
    put_made(sink, count_line(list, count))?;
    put_entries(sink, store, list, count)
}

// Some of the lists of entries.
fn put_lists<S: Sink, M: PeiStore>(
    sink: &mut S,
    store: &M,
    lists: &[EntryList],
) -> Result<(), SinkFault>
    requires state { Present (M.stands_for store.now) Anything }
    ensures text { OfEach (M.stands_for store.now) Anything (λ s. Puts result (S.text sink.old) (S.text sink.new)
        (flat_map (list_text s) lists.now)) }
    ensures cause { SinkFaultsAfter result (S.faults sink.old) (S.faults sink.new) }
{
    for list in lists {
        put_list(sink, store, *list)?;
    }
    Ok(())
}

/// Puts the lists of a store: its PPIs, notifications, queued pairs and HOBs, each after its count. Where the sink fails, a prefix of the text was put.
pub fn put_store_lists<S: Sink, M: PeiStore>(sink: &mut S, store: &M) -> Result<(), SinkFault>
    requires state { Present (M.stands_for store.now) Anything }
    ensures text { OfEach (M.stands_for store.now) Anything (λ s. Puts result (S.text sink.old) (S.text sink.new)
        (text_of (store_lines s))) }
    ensures cause { SinkFaultsAfter result (S.faults sink.old) (S.faults sink.new) }
{
    put_lists(sink, store, &ENTRY_LISTS)?;
    put_hobs(sink, store)
}
