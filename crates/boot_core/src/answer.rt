// How a call answers whose text was put.
ghost use Rattle.std.specs.Prelude.{◌≡◌};
ghost use Rattle.boot_core.specs.Refusing.{status_after};

use crate::status::Status;
use boot_io::SinkFault;

/// The status of a text that was put, or the sink's fault.
pub(crate) fn answer(put: Result<(), SinkFault>, status: Status) -> Status
    ensures { result ≡ status_after put status }
{
    match put {
        Ok(()) => status,
        Err(SinkFault) => Status::SinkFault,
    }
}
