// Where the names behind BEFORE and AFTER lead.
ghost use Rattle.std.specs.Prelude.{◌≡◌, length};
ghost use Rattle.boot_model.specs.DriverLicence as Of;
ghost use Rattle.boot_model.specs.DxeMachine.{DxeMachine};
ghost use Rattle.dxe_core.specs.Order.{IsOrderOf};
ghost use Rattle.boot_laws.specs.DxeAim.{follows};

use depex_code::Depex;
use dxe_core::DriverOrder;
use mod_catalog::{Catalog, PartExpr};
use phase_parts::part_of;
use pi_base::Phase;

/// The driver that a driver names in BEFORE or in AFTER.
pub fn target_of(catalog: &Catalog, order: &DriverOrder, number: u32) -> Option<u32>
    ensures { (m : DxeMachine) → IsOrderOf catalog.now m.discovered order.now → result ≡ Of.target_of catalog.now m number }
{
    match &part_of(catalog, Phase::Dxe, number)?.expr {
        PartExpr::Held(Depex::Before(name) | Depex::After(name)) => order.named(name),
        _ => None,
    }
}

/// The driver to which the names lead from a driver, after at most as many as there are modules.
pub(crate) fn root_of(catalog: &Catalog, order: &DriverOrder, number: u32) -> u32
    ensures { (m : DxeMachine) → IsOrderOf catalog.now m.discovered order.now
        → result ≡ follows catalog.now m (length catalog.now.modules) number }
{
    let mut root = number;
    'names: for _ in 0..catalog.modules.len() {
        match target_of(catalog, order, root) {
            Some(target) => root = target,
            None => return root,
        }
    }
    root
}
