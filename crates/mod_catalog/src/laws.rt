// What follows from the definitions alone.
ghost use Rattle.std.specs.Prelude.{◌≡◌, ℕ, List};
ghost use Rattle.pi_base.specs.{Field.AreBytes, Lists.Each, declared.phase.Phase.Phase};
ghost use Rattle.boot_plan.specs.declared.plan.Plan.{Plan};
ghost use Rattle.mod_catalog.specs.{Catalogue.IsCatalogue, WellFormed.AreShort, WellFormed.IsWellFormed, ImageFault.IsImageFault};
ghost use Rattle.mod_catalog.specs.{declared.catalogue.Catalog.Catalog, declared.image_fault.ImageFault.ImageFault};

/// The images of a plan have one catalogue, or one first fault, and never both.
pub fn one_catalogue()
    ensures catalogues { (plan : Plan) (images : List (List ℕ)) (a b : Catalog) → IsCatalogue plan images a → IsCatalogue plan images b
        → a ≡ b }
    ensures faults { (plan : Plan) (images : List (List ℕ)) (a b : ImageFault) → Each AreBytes images
        → IsImageFault plan images a → IsImageFault plan images b → a ≡ b }
    ensures apart { (plan : Plan) (images : List (List ℕ)) (catalog : Catalog) (fault : ImageFault) → Each AreBytes images
        → IsCatalogue plan images catalog → IsImageFault plan images fault → ⊥ }
{
    fv_volume::one_reading();
    fv_volume::sections::one_reading();
    act_code::one_outcome();
    depex_code::one_reading();
}

/// Each catalogue is well-formed, whatever its plan and its images.
pub fn catalogues_are_well_formed()
    ensures { (plan : Plan) (images : List (List ℕ)) (catalog : Catalog) → IsCatalogue plan images catalog → IsWellFormed catalog }
{
    fv_volume::places();
    fv_volume::sections::places();
}

/// In a well-formed catalogue the expression of each part is short enough to be evaluated.
pub fn well_formed_expressions_are_short()
    ensures { (phase : Phase) (catalog : Catalog) → IsWellFormed catalog → AreShort phase catalog }
{}
