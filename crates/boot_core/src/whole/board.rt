// The board of a plan: its memory, and its volumes where they are mapped.
ghost use Rattle.std.specs.Prelude.{◌≡◌, take, IfOk};
ghost use Rattle.boot_model.specs.PlanBoard.{roms_of};

use mod_catalog::VolumeEntry;
use phys_mem::Rom;
use pi_base::{OutOfMemory, Seq};
use std::alloc::Global;

// A volume of the plan, mapped at its base with the bytes of its FvLength.
fn rom(entry: &VolumeEntry, image: Seq<u8>) -> Rom
    ensures base { result.base ≡ entry.now.base }
    ensures bytes { result.bytes ≡ take entry.now.len image }
{
    let mut bytes = image;
    bytes.truncate(entry.len as usize);
    Rom {
        base: entry.base,
        bytes,
    }
}

/// The images of volumes as they are mapped, each cut to its FvLength. No image is copied.
pub fn roms(
    alloc: Global,
    entries: &[VolumeEntry],
    images: Seq<Seq<u8>>,
) -> Result<Seq<Rom>, OutOfMemory>
    ensures { IfOk result (λ roms. roms ≡ roms_of entries.now images) }
{
    let mut roms = Seq::new(alloc);
    let mut left = images.into_vec().into_iter();
    'entries: for entry in entries {
        if entry.parent.is_none() {
            match left.next() {
                Some(image) => roms.push(rom(entry, image))?,
                None => {}
            }
        }
    }
    Ok(roms)
}
