// Where the files of a volume stand where they are built again.
ghost use Rattle.std.specs.Prelude.{◌≡◌, ◌-◌, ◌^◌, ◌+◌, length, map, min};
ghost use Rattle.fv_volume.specs.{Stream.AreInside, Frame.aligned, Sections.body_bytes};
ghost use Rattle.volume_print.specs.{Description.section_in, Places.stands};

use fv_volume::ALIGNMENT;
use fv_volume::build::{FileSystem, gap, section_size};
use fv_volume::file_header::HEADER_LEN as FILE_HEADER_LEN;
use fv_volume::sections::Section;

/// Where a file stands that may stand from a place on.
pub(crate) fn stands(from: usize, at: usize) -> usize
    ensures { result ≡ stands from at }
{
    if at.saturating_sub(from) < FILE_HEADER_LEN {
        from
    } else {
        at
    }
}

/// The least place behind a file. One of 2^64 or more stands as 2^64 - 1.
pub(crate) fn behind(at: usize, len: usize) -> usize
    ensures { result ≡ min (aligned (at + len)) (2 ^ 64 - 1) }
{
    let end = at.saturating_add(len);
    end.saturating_add(gap(ALIGNMENT, end))
}

/// The bytes of sections where they are built, those between them too. So many as 2^64 stand as 2^64 - 1.
pub(crate) fn sections_len(file_system: FileSystem, stream: &[u8], sections: &[Section]) -> usize
    requires { AreInside stream.now sections.now }
    ensures { result ≡ min (length (body_bytes file_system (map (section_in stream.now) sections.now))) (2 ^ 64 - 1) }
{
    let mut end = 0usize;
    'sections: for section in sections {
        end = end
            .saturating_add(gap(fv_volume::sections::ALIGNMENT, end))
            .saturating_add(section_size(file_system, section.body_len as usize));
    }
    end
}
