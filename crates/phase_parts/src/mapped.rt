//! Which volume is mapped at an address.
ghost use Rattle.std.specs.Prelude.{◌≡◌, ◌≤◌, ◌<◌, length, IfSome};
ghost use Rattle.mod_catalog.specs.{declared.limits.TheConstants.MOST_VOLUMES, Parts.volume_at};

use mod_catalog::Catalog;

/// The number of the volume that is mapped at a physical address. None if no volume is mapped there.
pub fn volume_at(catalog: &Catalog, base: u64) -> Option<u32>
    requires { length catalog.now.volumes ≤ MOST_VOLUMES }
    ensures volume { result ≡ volume_at catalog.now base }
    ensures in_catalog { IfSome result (λ number. number < length catalog.now.volumes) }
{
    let mut number = 0;
    'volumes: for entry in catalog.volumes.as_slice() {
        if entry.base == base {
            return Some(number);
        }
        number += 1;
    }
    None
}
