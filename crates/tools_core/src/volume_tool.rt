// Volumes from their texts, and texts of volumes.
ghost use Rattle.std.specs.Prelude.{◌≤◌, length, IfOk};
ghost use Rattle.tools_core.specs.{Ends.Tells, PrintReport.PrintReport, VolumeReport.VolumeReport};

use crate::report::Report;
use fv_volume::VolCause;
use mod_catalog::{ImageFault, volume_cause};
use pi_base::OutOfMemory;
use std::alloc::Global;
use volume_print::text_of;
use volume_text::{TextFault, volume_of};

/// What the text of a volume leads to.
pub(crate) fn volume_report(alloc: Global, text: &[u8]) -> Result<Report, OutOfMemory>
    requires { length text.now ≤ 0x4000000 }
    ensures { IfOk result (Tells (VolumeReport text.now)) }
{
    match volume_of(alloc, text) {
        Ok(bytes) => Ok(Report::Answer(bytes)),
        Err(TextFault::Bad(fault)) => Ok(Report::Source(fault)),
        Err(TextFault::Memory) => Err(OutOfMemory),
    }
}

/// What the bytes of a volume lead to.
pub(crate) fn print_report(alloc: Global, bytes: &[u8]) -> Result<Report, OutOfMemory>
    ensures { IfOk result (Tells (PrintReport bytes.now)) }
{
    match text_of(alloc, bytes) {
        Ok(text) => Ok(Report::Answer(text)),
        Err(fault) => {
            if fault.cause == VolCause::Memory {
                return Err(OutOfMemory);
            }
            Ok(Report::Image(ImageFault {
                volume: 0,
                at: fault.at,
                cause: volume_cause(fault.cause),
            }))
        }
    }
}
