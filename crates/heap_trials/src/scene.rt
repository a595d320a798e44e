// The scene: a PPI, a notification of each kind for its GUID, and another PPI that is not installed.
//
// After the hand-off HOB, which has 56 bytes, there are four descriptors of 48 bytes with their headers, and then four nodes of 40: of the two notifications,
// of the PPI, and of the pair that is queued. The end HOB is at 56 + 192 + 160 = 408.
ghost use Rattle.std.specs.Prelude.{◌≡◌, true};
ghost use Rattle.store_model.specs.{StoreState.StoreState, StateFacts.IsDescriptorAt, StateFacts.IsNumberOf, Service.Present};
ghost use Rattle.store_model.specs.StoreCall.{Anything};
ghost use Rattle.store_laws.specs.Bodies.{IsGrown};
ghost use Rattle.heap_trials.specs.Scene.{IsLaid, IsOfScene};

use crate::calls::{MAKER, free};
use pi_base::Guid;
use store_model::{Desc, DescKind, GuidFrom, PeiStore, StoreFault, Sweep};

/// The GUID of the PPIs and of the notifications. The volume has the same bytes.
pub(crate) const NAME: Guid = Guid([0, 0, 0, 0, 0, 0, 0, 0, 0, 0, 0, 0, 0, 0, 0, 1]);

pub(crate) const INLINE: GuidFrom = GuidFrom::Inline(NAME);

pub(crate) const INSTALLED: Desc = Desc { offset: 0x40 };

pub(crate) const DISPATCH: Desc = Desc { offset: 0x70 };

pub(crate) const CALLBACK: Desc = Desc { offset: 0xa0 };

pub(crate) const OTHER: Desc = Desc { offset: 0xd0 };

/// The place of the end HOB.
pub(crate) const END: u64 = 408;

/// Which of the four descriptors.
#[derive(Clone, Copy)]
pub(crate) enum Of {
    Installed,
    Dispatch,
    Callback,
    Other,
}

/// The descriptor.
pub(crate) fn desc_of(of: Of) -> Desc
    ensures { IsOfScene result }
{
    match of {
        Of::Installed => INSTALLED,
        Of::Dispatch => DISPATCH,
        Of::Callback => CALLBACK,
        Of::Other => OTHER,
    }
}

// Makes a descriptor. Returns false if it would not be at this place.
fn makes<M: PeiStore>(store: &mut M, kind: DescKind, number: u64, place: u64) -> bool
    requires state { Present (M.stands_for store.old) Anything }
    requires number { IsNumberOf kind number }
    ensures { (s : StoreState) → M.stands_for store.old s → result ≡ true
        → (t : StoreState) × M.stands_for store.new t × IsGrown s t × IsDescriptorAt t kind place }
{
    match store.desc(kind, INLINE, number) {
        Ok(made) => made.offset == place,
        Err(_) => false,
    }
}

/// Makes the four descriptors. Returns false if one could not be made.
pub(crate) fn makes_all<M: PeiStore>(store: &mut M) -> bool
    requires { Present (M.stands_for store.old) Anything }
    ensures { result ≡ true → IsLaid (M.stands_for store.new) }
{
    if !makes(store, DescKind::Ppi, 7, INSTALLED.offset) {
        return false;
    }
    if !makes(store, DescKind::Dispatch, 3, DISPATCH.offset) {
        return false;
    }
    if !makes(store, DescKind::Callback, 5, CALLBACK.offset) {
        return false;
    }
    makes(store, DescKind::Ppi, 8, OTHER.offset)
}

pub(crate) fn install<M: PeiStore>(store: &mut M, of: Of) -> Result<Sweep, StoreFault>
    requires { IsLaid (M.stands_for store.old) }
    ensures { IsLaid (M.stands_for store.new) }
{
    let d = desc_of(of);
    store.install(&[d], MAKER)
}

pub(crate) fn notify<M: PeiStore>(store: &mut M, of: Of) -> Result<Sweep, StoreFault>
    requires { IsLaid (M.stands_for store.old) }
    ensures { IsLaid (M.stands_for store.new) }
{
    let d = desc_of(of);
    store.notify(&[d], MAKER)
}

pub(crate) fn reinstall<M: PeiStore>(store: &mut M, old: Of, new: Of) -> Result<Sweep, StoreFault>
    requires { IsLaid (M.stands_for store.old) }
    ensures { IsLaid (M.stands_for store.new) }
{
    let old = desc_of(old);
    let new = desc_of(new);
    store.reinstall(old, new, MAKER)
}

/// Lays the scene in a store. Returns false if it would not be there.
pub(crate) fn lay<M: PeiStore>(store: &mut M) -> bool
    requires { Present (M.stands_for store.old) Anything }
    ensures { result ≡ true → IsLaid (M.stands_for store.new) }
{
    if !makes_all(store) {
        return false;
    }
    let dispatch = notify(store, Of::Dispatch).is_ok();
    let callback = notify(store, Of::Callback).is_ok();
    let installed = install(store, Of::Installed).is_ok();
    dispatch && callback && installed
}

/// Takes a pool, so that so many bytes are free. Returns false if that fails.
pub(crate) fn fill<M: PeiStore>(store: &mut M, left: u32) -> bool
    requires { Present (M.stands_for store.old) Anything }
    ensures state { Present (M.stands_for store.new) Anything }
    ensures laid { IsLaid (M.stands_for store.old) → IsLaid (M.stands_for store.new) }
{
    let free = free(store);
    if free < 8 + u64::from(left) || free > 0xffff {
        return false;
    }
    let size = free - 8 - u64::from(left);
    store.pool(size as u32).is_ok()
}
