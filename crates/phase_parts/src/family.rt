//! A volume with those nested in it.
ghost use Rattle.std.specs.Prelude.{◌≡◌};
ghost use Rattle.mod_catalog.specs.{Parts.family, WellFormed.IsWellFormed};

use crate::volume_list::VolumeList;
use mod_catalog::Catalog;

/// A volume, and each volume nested in it at any depth, by number. Parents are before what is nested in them, so one pass finds all.
pub(crate) fn family_of(catalog: &Catalog, volume: u32) -> VolumeList
    requires { IsWellFormed catalog.now }
    ensures { result ≡ family catalog.now volume }
{
    let mut family = VolumeList::new();
    family.push_where(true, volume);
    let mut number = 0;
    'volumes: for entry in catalog.volumes.as_slice() {
        let is_nested = match entry.parent {
            Some(parent) => family.has(parent),
            None => false,
        };
        family.push_where(is_nested, number);
        number += 1;
    }
    family
}
