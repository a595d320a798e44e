// What follows from the definitions alone.
ghost use Rattle.std.specs.Prelude.{◌≡◌, ℕ, List};
ghost use Rattle.std.specs.List.{list_any};
ghost use Rattle.act_code.specs.declared.script.Script.{Script};
ghost use Rattle.mod_catalog.specs.{declared.catalogue.Module.Module, declared.catalogue.VolumeEntry.VolumeEntry};
ghost use Rattle.pi_base.specs.{Guids.same_guid, declared.guid.Guid.Guid};
ghost use Rattle.explain_text.specs.{Gives.given_in, Gives.names, Lines.IsCatalogText};

/// A GUID is among those that a script may install exactly where an action of one of its blocks names it.
pub fn given_are_named()
    ensures { (script : Script) (guid : Guid)
        → list_any (same_guid guid) (given_in script) ≡ list_any (list_any (names guid)) script.blocks }
{}

/// The lines of a catalogue are one text.
pub fn one_catalog_text()
    ensures { (volumes : List VolumeEntry) (images : List (List ℕ)) (modules : List Module) (a b : List ℕ)
        → IsCatalogText volumes images modules a → IsCatalogText volumes images modules b → a ≡ b }
{
    crate::catalog::one_title();
}
