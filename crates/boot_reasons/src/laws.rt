//! Laws of explained boots, each on a function that does nothing.
ghost use Rattle.std.specs.Prelude.{ℕ};
ghost use Rattle.mod_catalog.specs.{declared.catalogue.Catalog.Catalog, WellFormed.IsWellFormed};
ghost use Rattle.store_model.specs.StoreState.{Board};
ghost use Rattle.explain_text.specs.declared.reasons.Explained.{Explained};
ghost use Rattle.boot_reasons.specs.Boots.{ExplainsBoots, HasOneExplanation, IsOfOwnBoot};
ghost use Rattle.boot_reasons.specs.{Explained.IsExplained, Unseen.choices_of};

use crate::nowhere::Nowhere;
use boot_laws::{Choice, cursor_aims, dxe_runs_end, order_is_of_modules, pei_runs_end};

/// A boot by a choice that names one module at most has one explanation, or is left before one start.
pub fn one_explanation<C: Choice<Nowhere>>(choice: &C)
    ensures { HasOneExplanation (choices_of (C.rules choice.now)) }
{
    cursor_aims();
    order_is_of_modules();
}

/// What is explained is a boot by the choice.
pub fn explained_is_a_boot<C: Choice<Nowhere>>(choice: &C)
    ensures { ExplainsBoots (choices_of (C.rules choice.now)) }
{}

/// Where the first module that may start does, it is the boot of the machine itself, of which `boot` prints the lines.
pub fn own_boot_is_explained()
    ensures { (board : Board) (catalog : Catalog) (fuel : ℕ) (e : Explained) → IsWellFormed catalog
        → (is : IsExplained board catalog fuel e) → IsOfOwnBoot board catalog fuel e is }
{
    pei_runs_end();
    dxe_runs_end();
}
