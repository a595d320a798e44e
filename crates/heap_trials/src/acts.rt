// Calls over the scene, each of which leaves it there.
ghost use Rattle.std.specs.Prelude.{◌≡◌, ◌≤◌, true, length};
ghost use Rattle.store_model.specs.{Service.Present, Service.OfEach, StoreCall.Anything};
ghost use Rattle.heap_trials.specs.Scene.{IsLaid};

use crate::scene::{NAME, OTHER, Of, desc_of, fill, install, notify, reinstall};
use pi_base::Guid;
use store_model::{DescKind, Firing, PeiStore, StoreFault, Sweep};

/// A call that names descriptors of the scene.
#[derive(Clone, Copy)]
pub(crate) enum Named {
    Install(Of),
    Reinstall(Of, Of),
    Notify(Of),
}

/// A call over the scene with its answer.
#[derive(Drop)]
pub(crate) enum Act {
    /// So many bytes are left free.
    Fill(u32),
    /// A call that names descriptors, and the fault of its answer.
    Call(Named, Option<StoreFault>),
    /// What can be read of a descriptor.
    Descriptor(Of, (Guid, u64)),
    /// The other PPI is installed, and the callback fires once for it.
    Sweep,
}

/// The fault of an answer.
pub(crate) fn fault<T: Drop>(answer: Result<T, StoreFault>) -> Option<StoreFault> {
    match answer {
        Ok(_) => None,
        Err(fault) => Some(fault),
    }
}

fn call_named<S: PeiStore>(store: &mut S, call: Named) -> Option<StoreFault>
    requires { IsLaid (S.stands_for store.old) }
    ensures { IsLaid (S.stands_for store.new) }
{
    match call {
        Named::Install(of) => fault(install(store, of)),
        Named::Reinstall(old, new) => fault(reinstall(store, old, new)),
        Named::Notify(of) => fault(notify(store, of)),
    }
}

fn descriptor<S: PeiStore>(store: &S, of: Of) -> (Guid, u64)
    requires { IsLaid (S.stands_for store.now) }
{
    store.descriptor(desc_of(of))
}

// Whether there are so many PPIs.
fn has_ppis<S: PeiStore>(store: &S, count: u32) -> bool
    requires { Present (S.stands_for store.now) Anything }
    ensures { result ≡ true → OfEach (S.stands_for store.now) Anything (λ s. count ≤ length s.ppis) }
{
    count == 0 || store.ppi_at(count - 1).is_some()
}

// Whether there are so many callbacks.
fn has_callbacks<S: PeiStore>(store: &S, count: u32) -> bool
    requires { Present (S.stands_for store.now) Anything }
    ensures { result ≡ true → OfEach (S.stands_for store.now) Anything (λ s. count ≤ length s.callbacks) }
{
    count == 0 || store.note_at(DescKind::Callback, count - 1).is_some()
}

// The next callback that fires of a sweep over what is there. None if the sweep is over.
fn next<S: PeiStore>(store: &S, sweep: &mut Sweep) -> Option<Firing>
    requires { Present (S.stands_for store.now) Anything }
{
    if !has_ppis(store, sweep.ppi_to) {
        return None;
    }
    if !has_callbacks(store, sweep.note_to) {
        return None;
    }
    store.next_match(sweep)
}

// Installs the other PPI. Whether the callback fires once for it.
fn fires_once<S: PeiStore>(store: &mut S) -> bool
    requires { IsLaid (S.stands_for store.old) }
    ensures { IsLaid (S.stands_for store.new) }
{
    let firing = Firing {
        entry: 5,
        ppi: OTHER,
        guid: NAME,
        value: 8,
    };
    match install(store, Of::Other) {
        Ok(mut sweep) => [next(store, &mut sweep), next(store, &mut sweep)] == [Some(firing), None],
        Err(_) => false,
    }
}

// Whether a call is answered so.
fn is_done<S: PeiStore>(store: &mut S, act: &Act) -> bool
    requires { IsLaid (S.stands_for store.old) }
    ensures { IsLaid (S.stands_for store.new) }
{
    match act {
        Act::Fill(left) => fill(store, *left),
        Act::Call(call, want) => call_named(store, *call) == *want,
        Act::Descriptor(of, want) => descriptor(store, *of) == *want,
        Act::Sweep => fires_once(store),
    }
}

/// Whether calls are answered so, one after another.
pub(crate) fn are_done<S: PeiStore>(store: &mut S, acts: &[Act]) -> bool
    requires { IsLaid (S.stands_for store.old) }
    ensures { Present (S.stands_for store.new) Anything }
{
    'acts: for act in acts {
        if !is_done(store, act) {
            return false;
        }
    }
    true
}
