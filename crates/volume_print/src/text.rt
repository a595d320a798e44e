// The text of a volume.
ghost use Rattle.std.specs.Prelude.{◌≢◌, IfOk, IfErr};
ghost use Rattle.fv_volume.specs.Volume.{IsFirstFault};
ghost use Rattle.volume_print.specs.Description.{IsTextOf};

use crate::tree::text_by;
use fv_volume::{VolCause, VolFault, read_volume};
use mod_catalog::MOST_DEPTH;
use pi_base::Seq;
use std::alloc::Global;

/// The text of the volume that stands at the start of the bytes.
///
/// It says the volume's length, file system, header length and attributes, its name and where that stands, and of each listed file its type, name, attributes and sections: an expression, the
/// first script of a phase, the list of an a priori file and, in a file for volumes, a volume of all the section's bytes as text, all others by their
/// bytes; of a raw file, and of one whose sections cannot be read or would not take all of it where they are built, the body's bytes. A volume stands as text at most as deep as a catalogue has volumes,
/// and only where `volume_of` makes one of its text. A stretch in front of a file that no listed file takes is told as pads, so that the file stands where
/// it stood once `volume_of` has built it, behind the same bytes: the first 16 of a pad are its name, those behind its first 24 its body. A pad that looks erased is told by
/// its length alone. A stretch that is shorter than a file's header is not told, and the files behind it stand earlier, up to a longer one.
/// What has no text is passed over: the 8 bytes between a pad's name and its body, what stands behind the last file and between sections, an erase polarity of zeros, file
/// checksums, and bytes behind FvLength.
pub fn text_of(alloc: Global, bytes: &[u8]) -> Result<Seq<u8>, VolFault>
    ensures text { IfOk result (IsTextOf bytes.now) }
    // There is none where the bytes are no volume, and this is the first fault; or memory ran out.
    ensures refused { IfErr result (λ fault. fault.cause ≢ VolCause.Memory → IsFirstFault bytes.now fault) }
{
    let volume = read_volume(alloc, bytes)?;
    let text = text_by(alloc, bytes, &volume, MOST_DEPTH - 1)?;
    Ok(text)
}
