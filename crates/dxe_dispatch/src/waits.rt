// Which drivers wait.
ghost use Rattle.std.specs.Prelude.{◌≡◌};
ghost use Rattle.dxe_dispatch.specs.Queue.{waits_at};

/// Whether a driver waits, by the flags of the modules.
pub(crate) fn waits_at(waits: &[bool], number: u32) -> bool
    ensures { result ≡ waits_at waits.now number }
{
    match waits.get(number as usize) {
        Some(flag) => *flag,
        None => true,
    }
}
