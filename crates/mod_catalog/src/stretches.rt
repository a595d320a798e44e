// The stretches of a volume in which others are nested.
ghost use Rattle.std.specs.Prelude.{◌≡◌, ◌≤◌, ◌+◌, IfOk};
ghost use Rattle.mod_catalog.specs.{ReadFile.holds_volume, ReadFile.nested_in, Lying.LieIn, Lying.AreStretchesBelow};

use crate::Stretch;
use fv_volume::sections::{Section, section_type};
use fv_volume::{FfsFile, file_type};
use pi_base::{OutOfMemory, Seq};
use std::alloc::Global;

// Whether a section of a file holds a volume.
fn holds_volume(file: &FfsFile, section: &Section) -> bool
    ensures { result ≡ holds_volume file.now section.now }
{
    file.kind == file_type::VOLUME_IMAGE && section.kind == section_type::VOLUME_IMAGE
}

/// The stretches of a volume in which a file of it holds others.
pub(crate) fn stretches_of(
    alloc: Global,
    file: &FfsFile,
    sections: &[Section],
) -> Result<Seq<Stretch>, OutOfMemory>
    requires file { file.now.body_at + file.now.body_len ≤ u64.MAX }
    requires sections { LieIn file.now sections.now }
    ensures found { IfOk result (λ stretches. stretches ≡ nested_in file.now sections.now) }
    ensures below { IfOk result (AreStretchesBelow (file.now.body_at + file.now.body_len)) }
{
    let mut stretches = Seq::new(alloc);
    'sections: for section in sections.iter() {
        if !holds_volume(file, section) {
            continue;
        }
        stretches.push(Stretch {
            at: file.body_at + section.body_at,
            len: section.body_len,
        })?;
    }
    Ok(stretches)
}
