//! What lines say of modules.
ghost use Rattle.std.specs.Prelude.{◌≡◌};
ghost use Rattle.mod_catalog.specs.Parts.{module_name, module_volume};

use mod_catalog::Catalog;
use pi_base::Guid;

/// The number of a module's volume; 0 if there is no such module.
pub fn volume_of(catalog: &Catalog, number: u32) -> u32
    ensures { result ≡ module_volume catalog.now number }
{
    match catalog.modules.as_slice().get(number as usize) {
        Some(found) => found.volume,
        None => 0,
    }
}

/// The name of a module's file; zeros if there is no such module.
pub fn name_of(catalog: &Catalog, number: u32) -> Guid
    ensures { result ≡ module_name catalog.now number }
{
    match catalog.modules.as_slice().get(number as usize) {
        Some(found) => found.name,
        None => Guid([0; 16]),
    }
}
