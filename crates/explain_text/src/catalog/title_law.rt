// What follows from the definitions alone.
ghost use Rattle.std.specs.Prelude.{◌≡◌, ℕ, List, Option};
ghost use Rattle.mod_catalog.specs.{declared.catalogue.Module.Module, declared.catalogue.VolumeEntry.VolumeEntry};
ghost use Rattle.explain_text.specs.Title.{IsTitle};

/// A module has one name, or none.
pub fn one_title()
    ensures { (volumes : List VolumeEntry) (images : List (List ℕ)) (m : Module) (a b : Option (List ℕ))
        → IsTitle volumes images m a → IsTitle volumes images m b → a ≡ b }
{
    fv_volume::sections::one_reading();
}
