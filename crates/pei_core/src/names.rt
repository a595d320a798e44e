//! The lines that name a module.
ghost use Rattle.std.specs.Prelude.{◌≡◌};
ghost use Rattle.boot_model.specs.PeiMachine.{PeiMachine};
ghost use Rattle.boot_model.specs.PeiStep.{callback_line, dispatch_line, start_line};

use boot_model::{BLOCKS, Licence, Line};
use mod_catalog::Catalog;
use phase_parts::{name_of, volume_of};
use store_model::Firing;

/// The line of a callback.
pub(crate) fn callback_line(catalog: &Catalog, firing: &Firing) -> Line
    ensures { result ≡ callback_line catalog.now firing.now }
{
    let number = firing.entry / BLOCKS;
    Line::NotifyCallback {
        volume: volume_of(catalog, number),
        name: name_of(catalog, number),
        fired: firing.guid,
    }
}

/// The line of a dispatch notification.
pub(crate) fn dispatch_line(catalog: &Catalog, firing: &Firing) -> Line
    ensures { result ≡ dispatch_line catalog.now firing.now }
{
    let number = firing.entry / BLOCKS;
    Line::NotifyDispatch {
        volume: volume_of(catalog, number),
        name: name_of(catalog, number),
        fired: firing.guid,
    }
}

/// The line of a start.
pub(crate) fn start_line(catalog: &Catalog, number: u32, licence: Licence) -> Line
    ensures { (m : PeiMachine) → result ≡ start_line catalog.now m number licence }
{
    Line::PeiStart {
        volume: volume_of(catalog, number),
        name: name_of(catalog, number),
        licence,
    }
}
