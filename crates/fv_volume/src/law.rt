//! What follows from the definitions alone.
ghost use Rattle.std.specs.Prelude.{◌≡◌, ◌<◌, ◌≤◌, ◌⊎◌, length, List, ℕ};
ghost use Rattle.fv_volume.specs.{Volume.IsVolume, Volume.IsFirstFault, declared.volume.Volume.Volume, declared.fault.VolFault.VolFault};
ghost use Rattle.fv_volume.specs.Places.{AreInside, AreWithin, AreInOrder};

/// Bytes are one volume, or they have one first fault, and never both.
pub fn one_reading()
    ensures volumes { (bytes : List ℕ) (a b : Volume) → IsVolume bytes a → IsVolume bytes b → a ≡ b }
    ensures faults { (bytes : List ℕ) (a b : VolFault) → IsFirstFault bytes a → IsFirstFault bytes b → a ≡ b }
    ensures apart { (bytes : List ℕ) (a : Volume) (b : VolFault) → IsVolume bytes a → IsFirstFault bytes b → ⊥ }
    ensures some { (bytes : List ℕ) → ((a : Volume) × IsVolume bytes a) ⊎ ((b : VolFault) × IsFirstFault bytes b) }
{}

/// The files of a volume follow one another inside it, and it is not empty.
pub fn places()
    ensures some { (bytes : List ℕ) (volume : Volume) → IsVolume bytes volume → 0 < volume.len }
    ensures within { (bytes : List ℕ) (volume : Volume) → IsVolume bytes volume → AreWithin volume.len volume.files }
    ensures len { (bytes : List ℕ) (volume : Volume) → IsVolume bytes volume → volume.len ≤ length bytes }
    ensures inside { (bytes : List ℕ) (volume : Volume) → IsVolume bytes volume → AreInside bytes volume.files }
    ensures in_order { (bytes : List ℕ) (volume : Volume) → IsVolume bytes volume → AreInOrder volume.files }
{}
