//! The line of a HOB whose bytes stand in a store's heap.
ghost use Rattle.std.specs.Prelude.{[], ◌∷◌, ◌++◌, ◌≤◌, decimal};
ghost use Rattle.hex.specs.Hex.{encode_lower};
ghost use Rattle.boot_io.specs.{Line.line_of, Sink.Puts, Sink.SinkFaultsAfter};
ghost use Rattle.store_model.specs.Service.{Present, OfEach};
ghost use Rattle.boot_model.specs.declared.line.Line.TheVariants as L;
ghost use Rattle.boot_model.specs.Text.{bytes_text, line_text};
ghost use Rattle.boot_trace.specs.HeapParts.{IsHeapPart, heap_part};

use crate::hob_line::{PIECE_LEN, put_front, put_piece};
use crate::keywords::HOB;
use crate::marks::DASH;
use crate::number_word::decimal_word;
use boot_io::{Sink, SinkFault, put_line};
use store_model::PeiStore;

// A piece of the heap, in hexadecimal.
fn put_heap_piece<S: Sink, M: PeiStore>(
    sink: &mut S,
    store: &M,
    at: u64,
    len: usize,
) -> Result<(), SinkFault>
    requires few { len ≤ PIECE_LEN }
    requires state { Present (M.stands_for store.now) (IsHeapPart at len) }
    ensures text { OfEach (M.stands_for store.now) (IsHeapPart at len)
        (λ s. Puts result (S.text sink.old) (S.text sink.new) (encode_lower (heap_part s at len))) }
    ensures cause { SinkFaultsAfter result (S.faults sink.old) (S.faults sink.new) }
{
    let mut bytes = [0u8; PIECE_LEN];
    let (piece, _) = bytes.split_at_mut(len);
    // These bytes are mapped, so they are always read.
    let _ = store.peek(at, piece);
    put_piece(sink, piece)
}

// Bytes of the heap, in hexadecimal.
fn put_heap_bytes<S: Sink, M: PeiStore>(
    sink: &mut S,
    store: &M,
    at: u64,
    len: usize,
) -> Result<(), SinkFault>
    requires state { Present (M.stands_for store.now) (IsHeapPart at len) }
    ensures text { OfEach (M.stands_for store.now) (IsHeapPart at len)
        (λ s. Puts result (S.text sink.old) (S.text sink.new) (encode_lower (heap_part s at len))) }
    ensures cause { SinkFaultsAfter result (S.faults sink.old) (S.faults sink.new) }
{
    let mut next = at;
    let mut left = len;
    'pieces: while left > PIECE_LEN {
        put_heap_piece(sink, store, next, PIECE_LEN)?;
        next += PIECE_LEN as u64;
        left -= PIECE_LEN;
    }
    put_heap_piece(sink, store, next, left)
}

// Bytes of the heap and the end of the line.
fn put_heap_back<S: Sink, M: PeiStore>(
    sink: &mut S,
    store: &M,
    at: u64,
    len: usize,
) -> Result<(), SinkFault>
    requires state { Present (M.stands_for store.now) (IsHeapPart at len) }
    ensures text { OfEach (M.stands_for store.now) (IsHeapPart at len)
        (λ s. Puts result (S.text sink.old) (S.text sink.new) (encode_lower (heap_part s at len) ++ 10 ∷ [])) }
    ensures cause { SinkFaultsAfter result (S.faults sink.old) (S.faults sink.new) }
{
    match put_heap_bytes(sink, store, at, len) {
        Ok(()) => sink.put(b"\n"),
        Err(SinkFault) => Err(SinkFault),
    }
}

// A keyword, a HOB's type, and bytes of the heap or a dash.
fn put_heap_hob<S: Sink, M: PeiStore>(
    sink: &mut S,
    store: &M,
    keyword: &[u8],
    kind: u16,
    at: u64,
    len: usize,
) -> Result<(), SinkFault>
    requires state { Present (M.stands_for store.now) (IsHeapPart at len) }
    ensures text { OfEach (M.stands_for store.now) (IsHeapPart at len)
        (λ s. Puts result (S.text sink.old) (S.text sink.new) (line_of keyword.now (decimal kind ∷ bytes_text (heap_part s at len) ∷ []))) }
    ensures cause { SinkFaultsAfter result (S.faults sink.old) (S.faults sink.new) }
{
    if len == 0 {
        return put_line(
            sink,
            keyword,
            &[decimal_word(u64::from(kind)).as_slice(), DASH],
        );
    }
    match put_front(sink, keyword, kind) {
        Ok(()) => put_heap_back(sink, store, at, len),
        Err(SinkFault) => Err(SinkFault),
    }
}

// The line of a HOB whose bytes stand in the heap.
#[tactic(auto, unfolding(boot_model::specs::Text::keyword))]
pub(crate) fn put_heap_line<S: Sink, M: PeiStore>(
    sink: &mut S,
    store: &M,
    kind: u16,
    at: u64,
    len: usize,
) -> Result<(), SinkFault>
    requires state { Present (M.stands_for store.now) (IsHeapPart at len) }
    ensures text { OfEach (M.stands_for store.now) (IsHeapPart at len)
        (λ s. Puts result (S.text sink.old) (S.text sink.new) (line_text (L.Hob kind (heap_part s at len)))) }
    ensures cause { SinkFaultsAfter result (S.faults sink.old) (S.faults sink.new) }
{
    put_heap_hob(sink, store, HOB, kind, at, len)
}
