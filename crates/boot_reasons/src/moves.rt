// The move of the heap, as a step shows it.
ghost use Rattle.std.specs.{Prelude.◌≡◌, Option.option_or};
ghost use Rattle.store_model.specs.{Service.Present, Service.OfEach, StoreCall.Anything};
ghost use Rattle.boot_reasons.specs.Moving.{heap_used, moved_from, unmoved_base};

use boot_trace::count_hobs;
use explain_text::Moved;
use store_model::PeiStore;

// The length of the end HOB, which is a header alone.
const END_LEN: u64 = 8;

/// How many bytes of the heap the HOB list takes, its end HOB included.
pub(crate) fn heap_used<M: PeiStore>(store: &M) -> u64
    requires state { Present (M.stands_for store.now) Anything }
    ensures { OfEach (M.stands_for store.now) Anything (λ s. result ≡ heap_used s) }
{
    count_hobs(store).end + END_LEN
}

/// The base of a heap that has not moved.
pub(crate) fn unmoved_base<M: PeiStore>(store: &M) -> Option<u64>
    requires state { Present (M.stands_for store.now) Anything }
    ensures { OfEach (M.stands_for store.now) Anything (λ s. result ≡ unmoved_base s) }
{
    if store.moved() {
        None
    } else {
        Some(store.base())
    }
}

/// The move that was told before, and else the one from a base, where the heap has moved.
pub(crate) fn first_move<M: PeiStore>(
    told: Option<Moved>,
    from: Option<u64>,
    store: &M,
) -> Option<Moved>
    requires state { Present (M.stands_for store.now) Anything }
    ensures { OfEach (M.stands_for store.now) Anything (λ s. result ≡ option_or told (moved_from from s)) }
{
    match told {
        Some(moved) => Some(moved),
        None => match from {
            Some(from) if store.moved() => Some(Moved {
                from,
                to: store.base(),
                used: heap_used(store),
            }),
            _ => None,
        },
    }
}
