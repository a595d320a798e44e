//! Which drivers were requested.
ghost use Rattle.std.specs.Prelude.{◌≡◌};
ghost use Rattle.dxe_core.specs.Services.{flag_at};

/// Whether a driver was requested, by the flags of all.
pub fn is_requested(requested: &[bool], number: u32) -> bool
    ensures { result ≡ flag_at requested.now number }
{
    match requested.get(number as usize) {
        Some(flag) => *flag,
        None => false,
    }
}
