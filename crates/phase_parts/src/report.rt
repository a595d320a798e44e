//! The volumes that PPIs report.
ghost use Rattle.std.specs.Prelude.{◌≡◌, ◌≤◌, ◌<◌, length, IfSome};
ghost use Rattle.mod_catalog.specs.{declared.limits.TheConstants.MOST_VOLUMES, WellFormed.IsWellFormed};
ghost use Rattle.boot_model.specs.Reporting as R;
ghost use Rattle.store_model.specs.{StateFacts.IsDesc, Service.Present, Service.OfEach, StoreCall.Anything};
ghost use Rattle.phase_parts.specs.Known.{AreKnown};
ghost use Rattle.phase_parts.specs.Reported.{AreDescs, IsWithReports, volume_of_info};

use crate::mapped::volume_at;
use crate::volume_list::VolumeList;
use boot_model::{FILE_SYSTEM2, FILE_SYSTEM3};
use mod_catalog::Catalog;
use pi_base::{Guid, VOLUME_INFO_PPI, u64_at};
use store_model::{Desc, PeiStore};

/// The length of the PPI of the volume information.
const INFO_LEN: usize = 48;

/// The offset of its FvInfo, the address of the volume.
const INFO_AT: usize = 16;

// The volume to which these bytes of a PPI refer, if they say that it has a file system of the specification.
fn volume_in(catalog: &Catalog, info: &[u8; INFO_LEN]) -> Option<u32>
    requires { length catalog.now.volumes ≤ MOST_VOLUMES }
    ensures volume { result ≡ R.told_by catalog.now info.now }
    ensures in_catalog { IfSome result (λ number. number < length catalog.now.volumes) }
{
    let format = Guid::at(info, 0);
    if format == FILE_SYSTEM2 || format == FILE_SYSTEM3 {
        volume_at(catalog, u64_at(info, INFO_AT))
    } else {
        None
    }
}

// The volume to which the volume information at an address refers.
fn volume_of_info<M: PeiStore>(catalog: &Catalog, store: &M, address: u64) -> Option<u32>
    requires few { length catalog.now.volumes ≤ MOST_VOLUMES }
    requires state { Present (M.stands_for store.now) Anything }
    ensures volume { OfEach (M.stands_for store.now) Anything (λ s. result ≡ volume_of_info catalog.now s address) }
    ensures in_catalog { IfSome result (λ number. number < length catalog.now.volumes) }
{
    let mut info = [0; INFO_LEN];
    if store.peek(address, &mut info) {
        volume_in(catalog, &info)
    } else {
        None
    }
}

// The volume to which the PPI of a descriptor refers.
fn volume_of_ppi<M: PeiStore>(catalog: &Catalog, store: &M, ppi: Desc) -> Option<u32>
    requires few { length catalog.now.volumes ≤ MOST_VOLUMES }
    requires state { Present (M.stands_for store.now) (λ s. IsDesc s ppi) }
    ensures volume { OfEach (M.stands_for store.now) (λ s. IsDesc s ppi) (λ s. result ≡ R.told_at catalog.now s ppi.offset) }
    ensures in_catalog { IfSome result (λ number. number < length catalog.now.volumes) }
{
    let (guid, address) = store.descriptor(ppi);
    if guid == VOLUME_INFO_PPI {
        volume_of_info(catalog, store, address)
    } else {
        None
    }
}

impl VolumeList {
    /// Adds the volumes that the PPIs of these descriptors report: each new volume of the catalogue to which one refers, followed by each new volume nested in
    /// it.
    pub fn report<M: PeiStore>(&mut self, catalog: &Catalog, store: &M, ppis: &[Desc])
        requires catalog { IsWellFormed catalog.now }
        requires known { AreKnown catalog.now self.old }
        requires state { Present (M.stands_for store.now) (AreDescs ppis.now) }
        ensures reported { OfEach (M.stands_for store.now) (AreDescs ppis.now) (IsWithReports catalog.now self.old ppis.now self.new) }
        ensures known { AreKnown catalog.now self.new }
    {
        'ppis: for ppi in ppis {
            self.add(catalog, volume_of_ppi(catalog, store, *ppi));
        }
    }
}
