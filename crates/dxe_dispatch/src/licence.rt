//! By which licence a driver starts that comes with a group.
ghost use Rattle.std.specs.Prelude.{◌≡◌};
ghost use Rattle.pi_base.specs.declared.phase.Phase.TheVariants.{Dxe};
ghost use Rattle.mod_catalog.specs.Parts.{part_at};
ghost use Rattle.boot_model.specs.DxeChoice.{driver_licence};

use boot_model::Licence;
use depex_code::Depex;
use mod_catalog::{Catalog, PartExpr};
use phase_parts::part_of;
use pi_base::Phase;

/// The licence of a driver in a group: that its expression holds, or a place beside the driver that it names.
pub(crate) fn licence_of(catalog: &Catalog, number: u32) -> Licence
    ensures { result ≡ driver_licence (part_at Dxe catalog.now number) }
{
    match part_of(catalog, Phase::Dxe, number) {
        Some(part) => match &part.expr {
            PartExpr::Absent => Licence::Absent,
            PartExpr::Held(Depex::Before(_)) => Licence::Before,
            PartExpr::Held(Depex::After(_)) => Licence::After,
            PartExpr::Malformed(_) | PartExpr::Held(Depex::Expr { .. }) => Licence::True,
        },
        None => Licence::True,
    }
}
