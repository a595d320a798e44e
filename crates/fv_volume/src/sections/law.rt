//! What follows from the definitions alone.
ghost use Rattle.std.specs.Prelude.{◌≡◌, ◌⊎◌, List, ℕ};
ghost use Rattle.fv_volume.specs.Stream.{AreSections, AreInOrder, AreInside, IsFirstFault};
ghost use Rattle.fv_volume.specs.{declared.sections.section.Section.Section, declared.sections.fault.SecFault.SecFault};

/// Bytes are one list of sections, or they have one first fault, and never both.
pub fn one_reading()
    ensures sections { (bytes : List ℕ) (a b : List Section) → AreSections bytes a → AreSections bytes b → a ≡ b }
    ensures faults { (bytes : List ℕ) (a b : SecFault) → IsFirstFault bytes a → IsFirstFault bytes b → a ≡ b }
    ensures apart { (bytes : List ℕ) (a : List Section) (b : SecFault) → AreSections bytes a → IsFirstFault bytes b → ⊥ }
    ensures some { (bytes : List ℕ) → ((a : List Section) × AreSections bytes a) ⊎ ((b : SecFault) × IsFirstFault bytes b) }
{}

/// The bodies of sections follow one another in their stream.
pub fn places()
    ensures inside { (bytes : List ℕ) (sections : List Section) → AreSections bytes sections → AreInside bytes sections }
    ensures in_order { (bytes : List ℕ) (sections : List Section) → AreSections bytes sections → AreInOrder sections }
{}
