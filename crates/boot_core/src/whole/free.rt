//! Boots by choices are free ones.
ghost use Rattle.std.specs.Prelude.{ℕ};
ghost use Rattle.mod_catalog.specs.declared.catalogue.Catalog.{Catalog as OfCatalog};
ghost use Rattle.boot_core.specs.{Choices.choices_of, FreeWay.AreFree};

use boot_io::Sink;
use boot_laws::{
    Choice, cursor_aims, dxe_chooses_by_groups, dxe_goes_on, groups_are_aimed, pei_starts_freely,
};

/// Whatever the choice, free steps alone lead to each machine to which its boots come, and where one comes to its end its lines are those of a free boot.
pub fn choices_are_free<S: Sink, C: Choice<S>>(choice: &C)
    ensures { (catalog : OfCatalog) (fuel : ℕ) (first : S)
        → AreFree (choices_of (record { rules = C.rules choice.now; text = S.text; faults = S.faults }) catalog fuel first) }
{
    cursor_aims();
    pei_starts_freely();
    dxe_goes_on();
    dxe_chooses_by_groups();
    groups_are_aimed();
}
