//! Bits of a byte.
ghost use Rattle.std.specs.Prelude.{◌≡◌};
ghost use Rattle.fv_volume.specs.Bits.{is_set};

/// Whether a bit of the mask is set.
pub(crate) fn is_set(bits: u8, mask: u8) -> bool
    ensures { result ≡ is_set bits mask }
{
    bits & mask != 0
}
