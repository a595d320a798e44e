// The bytes from an address on, in the volume of the plan that holds it.
ghost use Rattle.std.specs.Prelude.{◌≡◌, take};
ghost use Rattle.boot_model.specs.PlanBoard.{roms_of};
ghost use Rattle.explain_text.specs.Mapped.{mapped_from, holds};

use mod_catalog::VolumeEntry;
use pi_base::Seq;

// The bytes of a volume of the plan, to its FvLength.
fn rom_bytes<'a>(entry: &VolumeEntry, image: &'a [u8]) -> &'a [u8]
    ensures { result.now ≡ take entry.now.len image.now }
{
    let len = entry.len as usize;
    if len < image.len() {
        &image[..len]
    } else {
        image
    }
}

// Whether an address is one of so many from a base on.
fn holds(base: u64, len: usize, address: u64) -> bool
    ensures { result ≡ holds base len address }
{
    address >= base && address - base < len as u64
}

/// The bytes from an address on to the end of the volume of the plan that is mapped there; none where no volume is. The images are those of the plan's volumes.
pub(crate) fn mapped_from<'a>(
    volumes: &[VolumeEntry],
    images: &'a [Seq<u8>],
    address: u64,
) -> &'a [u8]
    ensures { result.now ≡ mapped_from address (roms_of volumes.now images.now) }
{
    let mut left = images;
    'volumes: for entry in volumes {
        if entry.parent.is_none() {
            match left {
                [] => return &[],
                [image, after @ ..] => {
                    let bytes = rom_bytes(entry, image.as_slice());
                    if holds(entry.base, bytes.len(), address) {
                        return &bytes[(address - entry.base) as usize..];
                    }
                    left = after;
                }
            }
        }
    }
    &[]
}
