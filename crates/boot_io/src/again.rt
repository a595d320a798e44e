// Calls of a device that are made again.
ghost use Rattle.std.specs.Prelude.{◌≡◌, ◌⊎◌, ◌↔◌, IsTrue};
ghost use Rattle.std.specs.IoError.{error_kind};

use std::io::{Error, ErrorKind};

// How often a device is asked again within one piece or content: for centuries, but not for ever.
pub(crate) const TRIES: u64 = u64::MAX;

// Whether the same call may get through: a signal interrupted it, or it would have blocked.
pub(crate) fn may_get_through(fault: &Error) -> bool
    ensures { IsTrue result
        ↔ ((error_kind fault.now ≡ ErrorKind.Interrupted) ⊎ (error_kind fault.now ≡ ErrorKind.WouldBlock)) }
{
    matches!(fault.kind(), ErrorKind::Interrupted | ErrorKind::WouldBlock)
}
