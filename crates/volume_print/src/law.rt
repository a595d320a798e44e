// The law of printed texts.
ghost use Rattle.std.specs.Prelude.{◌≡◌, ℕ, List};
ghost use Rattle.fv_volume.specs.{Volume.IsFirstFault, declared.fault.VolFault.VolFault, declared.volume.Volume.Volume};
ghost use Rattle.volume_print.specs.Description.{IsTextBy, IsInner, IsTextOf};

/// A volume has one text, and bytes with a fault have none.
pub fn one_text()
    ensures one { (bytes a b : List ℕ) → IsTextOf bytes a → IsTextOf bytes b → a ≡ b }
    ensures apart { (bytes text : List ℕ) (fault : VolFault) → IsTextOf bytes text → IsFirstFault bytes fault → ⊥ }
{
    fv_volume::one_reading();
    fv_volume::sections::one_reading();
    depex_code::one_reading();
    act_code::one_outcome();
}

/// A volume that was read has one text, however deep volumes are told in it.
pub(crate) fn one_text_by()
    ensures { (deep : ℕ) (bytes : List ℕ) (volume : Volume) (a b : List ℕ) → IsTextBy (IsInner deep) bytes volume a
        → IsTextBy (IsInner deep) bytes volume b → a ≡ b }
{
    fv_volume::one_reading();
    fv_volume::sections::one_reading();
    depex_code::one_reading();
    act_code::one_outcome();
}
