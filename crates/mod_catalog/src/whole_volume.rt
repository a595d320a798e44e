// A volume, assembled with what its files hold.
ghost use Rattle.std.specs.Prelude.{◌≡◌, ◌≤◌, ◌+◌, ℕ, suc, filter, IfOk};
ghost use Rattle.fv_volume.specs.{Volume.IsVolume, Places.AreInside};
ghost use Rattle.mod_catalog.specs.{ReadFile.AreRead, ReadFile.is_read, declared.totals.Totals.Totals};
ghost use Rattle.mod_catalog.specs.Totals.{AreWithin, totals_with, with_volume};
ghost use Rattle.mod_catalog.specs.{VolumeTree.Holds, VolumeTree.entry_of, APriori.AreFound, Examined.AreExamined, Examined.IsFirstEntry};
ghost use Rattle.mod_catalog.specs.Image.{image_of};

use crate::a_priori::APrioriFiles;
use crate::examined::ExaminedFiles;
use crate::modules::modules_of;
use crate::{Holding, Location, VolumeEntry};
use fv_volume::Volume;
use pi_base::{OutOfMemory, Seq};
use std::alloc::Global;

/// What a volume holds whose files were examined.
pub(crate) fn whole_volume(
    alloc: Global,
    bytes: &[u8],
    location: Location,
    volume: &Volume,
    a_priori: &APrioriFiles,
    files: ExaminedFiles,
) -> Result<Holding, OutOfMemory>
    requires is_volume { IsVolume bytes.now volume.now }
    requires inside { AreInside bytes.now volume.now.files }
    requires found { AreFound volume.now.files a_priori.now }
    requires read { AreRead bytes.now volume.now.files files.reads }
    requires script_bytes { files.script_bytes + files.inner.script_bytes ≤ u64.MAX }
    ensures found { IfOk result (λ held. (deep : ℕ) (totals : Totals) → location.number ≡ totals.volumes
        → AreExamined deep (image_of bytes.now location) (with_volume totals) (filter (is_read volume.now.files) volume.now.files) files
        → Holds (suc deep) (image_of bytes.now location) held × AreWithin (totals_with totals held)) }
    ensures first { IfOk result (λ held. IsFirstEntry (entry_of location volume.now) held.volumes) }
{
    let entry = VolumeEntry {
        base: location.base,
        len: volume.len,
        name: volume.name,
        parent: location.parent,
    };
    let ExaminedFiles {
        reads,
        script_bytes,
        inner,
        ..
    } = files;
    let modules = modules_of(
        alloc,
        bytes,
        volume.files.as_slice(),
        a_priori,
        reads,
        location.number,
    )?;
    let mut volumes = Seq::new(alloc);
    volumes.push(entry)?;
    let own = Holding {
        volumes,
        modules,
        script_bytes,
    };
    own.joined(inner)
}
