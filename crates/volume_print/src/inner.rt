// Which sections are told as volumes.
ghost use Rattle.std.specs.Prelude.{◌≡◌, IfOk, IfSome};
ghost use Rattle.fv_volume.specs.Places.{AreInside};
ghost use Rattle.volume_print.specs.{Spelling.holds_volume, Finding.FindsVolume, Finding.FindsText};

use crate::form::Host;
use fv_volume::file_type::VOLUME_IMAGE as VOLUME_FILE;
use fv_volume::sections::section_type::VOLUME_IMAGE as VOLUME_SECTION;
use fv_volume::{VolCause, Volume, one_reading, read_volume};
use pi_base::{OutOfMemory, Seq};
use std::alloc::Global;
use volume_text::{TextFault, one_volume, volume_of};

/// Whether a section of a type may be told as a volume in a file.
pub(crate) fn holds_volume(host: &Host, kind: u8) -> bool
    ensures { result ≡ holds_volume host.now kind }
{
    host.kind == VOLUME_FILE && kind == VOLUME_SECTION
}

/// The volume that bytes are from the first to the last, or none.
#[tactic(auto, using(crate::proofs::OneText::no_other))]
pub(crate) fn whole_volume(alloc: Global, bytes: &[u8]) -> Result<Option<Volume>, OutOfMemory>
    ensures found { IfOk result (FindsVolume bytes.now) }
    ensures inside { IfOk result (λ found. IfSome found (λ volume. AreInside bytes.now volume.files)) }
{
    one_reading();
    let volume = match read_volume(alloc, bytes) {
        Ok(volume) => volume,
        Err(fault) => {
            if fault.cause == VolCause::Memory {
                return Err(OutOfMemory);
            }
            return Ok(None);
        }
    };
    if volume.len == bytes.len() as u64 {
        Ok(Some(volume))
    } else {
        Ok(None)
    }
}

/// A text of which `volume_of` makes a volume of so many bytes, or none.
#[tactic(auto, using(crate::proofs::OneText::no_volume_so_long))]
pub(crate) fn read_again(
    alloc: Global,
    text: Seq<u8>,
    len: usize,
) -> Result<Option<Seq<u8>>, OutOfMemory>
    ensures { IfOk result (FindsText len text) }
{
    one_volume();
    let again = match volume_of(alloc, text.as_slice()) {
        Ok(again) => again,
        Err(TextFault::Bad(_)) => return Ok(None),
        Err(TextFault::Memory) => return Err(OutOfMemory),
    };
    if again.len() == len {
        Ok(Some(text))
    } else {
        Ok(None)
    }
}
