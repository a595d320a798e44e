//! The HOBs of a store, after their count.
ghost use Rattle.std.specs.Prelude.{◌≡◌, length, Some, IsSomeAnd};
ghost use Rattle.boot_io.specs.Sink.{Puts, SinkFaultsAfter};
ghost use Rattle.store_model.specs.{Service.Present, Service.OfEach, Service.Reading.hob_at, StoreCall.Anything};
ghost use Rattle.boot_model.specs.{Text.line_text, Text.text_of, Listing.hob_lines, Listing.hob_lines_from};
ghost use Rattle.boot_trace.specs.HobLines.{IsHobCount, all_hobs, hob_line_at};

use crate::heap_bytes::put_heap_line;
use crate::line::put_made;
use boot_io::{Sink, SinkFault};
use boot_model::Line;
use store_model::{HobSpan, PeiStore};

// The length of a HOB's header.
const HEADER_LEN: u16 = hob_codec::HEADER_LEN as u16;

// A HOB whose type and length are known.
fn put_span<S: Sink, M: PeiStore>(
    sink: &mut S,
    store: &M,
    offset: u64,
    span: &HobSpan,
) -> Result<(), SinkFault>
    requires state { Present (M.stands_for store.now) (λ s. hob_at s offset ≡ Some span.now) }
    ensures text { OfEach (M.stands_for store.now) (λ s. hob_at s offset ≡ Some span.now)
        (λ s. IsSomeAnd (hob_line_at s offset) (λ line. Puts result (S.text sink.old) (S.text sink.new) (line_text line))) }
    ensures cause { SinkFaultsAfter result (S.faults sink.old) (S.faults sink.new) }
{
    let at = store.base() + offset + u64::from(HEADER_LEN);
    let len = usize::from(span.length - HEADER_LEN);
    put_heap_line(sink, store, span.kind, at, len)
}

/// The HOB list of a store, counted.
#[derive(Clone, Copy)]
pub struct HobCount {
    /// How many HOBs there are but the end HOB.
    pub hobs: u32,
    /// The offset of the end HOB in the heap.
    pub end: u64,
}

/// Counts the HOB list of a store.
pub fn count_hobs<M: PeiStore>(store: &M) -> HobCount
    requires state { Present (M.stands_for store.now) Anything }
    ensures row { OfEach (M.stands_for store.now) Anything (IsHobCount result) }
{
    let mut count = 0;
    let mut next = 0;
    'hobs: while let Some(span) = store.hob_at(next) {
        count += 1;
        next = span.next;
    }
    HobCount {
        hobs: count,
        end: next,
    }
}

// The lines of the HOBs.
fn put_hob_lines<S: Sink, M: PeiStore>(sink: &mut S, store: &M) -> Result<(), SinkFault>
    requires state { Present (M.stands_for store.now) Anything }
    ensures text { OfEach (M.stands_for store.now) Anything (λ s. Puts result (S.text sink.old) (S.text sink.new)
        (text_of (hob_lines_from s 0 (all_hobs s)))) }
    ensures cause { SinkFaultsAfter result (S.faults sink.old) (S.faults sink.new) }
{
    let mut offset = 0;
    'hobs: while let Some(span) = store.hob_at(offset) {
        put_span(sink, store, offset, &span)?;
        offset = span.next;
    }
    Ok(())
}

// The HOBs, after their count.
pub(crate) fn put_hobs<S: Sink, M: PeiStore>(sink: &mut S, store: &M) -> Result<(), SinkFault>
    requires state { Present (M.stands_for store.now) Anything }
    ensures text { OfEach (M.stands_for store.now) Anything (λ s. Puts result (S.text sink.old) (S.text sink.new) (text_of (hob_lines s))) }
    ensures cause { SinkFaultsAfter result (S.faults sink.old) (S.faults sink.new) }
{
    let count = count_hobs(store).hobs;
    match put_made(sink, Line::Hobs { count }) {
        Ok(()) => put_hob_lines(sink, store),
        Err(SinkFault) => Err(SinkFault),
    }
}
