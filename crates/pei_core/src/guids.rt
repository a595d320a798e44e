//! The GUIDs of the PPIs that an action changed.
ghost use Rattle.std.specs.Prelude.{◌≡◌, ◌≤◌, length, map, Some, None};
ghost use Rattle.pi_base.specs.Lists.{Each};
ghost use Rattle.store_model.specs.{StateFacts.IsDesc, Service.Present, Service.OfEach};
ghost use Rattle.store_model.specs.Service.Descriptor.{guid_at, offsets};
ghost use Rattle.pei_core.specs.Guids.{ArePut, AreReplaced, no_changes, one_installed};

use crate::descriptors::MOST_DESCRIPTORS;
use arrayvec::ArrayVec;
use pi_base::Guid;
use store_model::{Desc, PeiStore};

/// The GUIDs of the PPIs that were installed or removed.
#[derive(Drop)]
pub struct Changes {
    /// Those that were installed.
    pub there: ArrayVec<Guid, MOST_DESCRIPTORS>,
    /// The one that was taken away; another PPI may have it still.
    pub gone: Option<Guid>,
}

impl Changes {
    /// One GUID was installed.
    pub fn installed(guid: Guid) -> Changes
        ensures { result ≡ one_installed guid }
    {
        let mut there = ArrayVec::new();
        there.push(guid);
        Changes { there, gone: None }
    }

    /// No GUID was installed or removed.
    pub fn none() -> Changes
        ensures { result ≡ no_changes }
    {
        Changes {
            there: ArrayVec::new(),
            gone: None,
        }
    }
}

// The GUIDs of some descriptors.
fn guids_of<M: PeiStore>(store: &M, list: &[Desc]) -> ArrayVec<Guid, MOST_DESCRIPTORS>
    requires few { length list.now ≤ 8 }
    requires state { Present (M.stands_for store.now) (λ s. Each (IsDesc s) list.now) }
    ensures { OfEach (M.stands_for store.now) (λ s. Each (IsDesc s) list.now) (λ s. result.items ≡ map (guid_at s) (offsets list.now)) }
{
    let mut guids = ArrayVec::new();
    'descriptors: for descriptor in list {
        guids.push(store.descriptor(*descriptor).0);
    }
    guids
}

/// What the installation of the PPIs of these descriptors changed.
pub(crate) fn put_in<M: PeiStore>(store: &M, list: &[Desc]) -> Changes
    requires few { length list.now ≤ 8 }
    requires state { Present (M.stands_for store.now) (λ s. Each (IsDesc s) list.now) }
    ensures { OfEach (M.stands_for store.now) (λ s. Each (IsDesc s) list.now) (λ s. ArePut s list.now result) }
{
    Changes {
        there: guids_of(store, list),
        gone: None,
    }
}

/// What the PPI of one descriptor changed that took the place of another's.
pub(crate) fn replaced<M: PeiStore>(store: &M, old: Desc, new: Desc) -> Changes
    requires state { Present (M.stands_for store.now) (λ s. IsDesc s old × IsDesc s new) }
    ensures { OfEach (M.stands_for store.now) (λ s. IsDesc s old × IsDesc s new) (AreReplaced old new result) }
{
    let mut there = ArrayVec::new();
    there.push(store.descriptor(new).0);
    Changes {
        there,
        gone: Some(store.descriptor(old).0),
    }
}
