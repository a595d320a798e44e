//! The two file systems, and the sizes that their fields can hold.
ghost use Rattle.std.specs.Prelude.{◌≡◌};
ghost use Rattle.fv_volume.specs.FileSystems.{file_system_guid};

use crate::volume_header::{FFS2, FFS3};

/// The largest size in a Size field of three bytes. PI 1.8, volume 3: 0xFFFFFF refers to another field.
pub(crate) const MOST_SIZE: usize = 0xff_fffe;

/// The largest size of an extended section, in a field of four bytes.
pub(crate) const MOST_EXTENDED_SIZE: usize = 0xffff_ffff;

/// A file system of firmware volumes.
#[derive(Clone, Copy)]
pub enum FileSystem {
    /// Sections and files of at most `MOST_SIZE` bytes.
    Ffs2,
    /// Longer ones are extended sections and large files.
    Ffs3,
}

/// The GUID of a file system, as it is in a volume's header.
pub(crate) fn file_system_guid(file_system: FileSystem) -> [u8; 16]
    ensures { result ≡ file_system_guid file_system }
{
    match file_system {
        FileSystem::Ffs2 => FFS2,
        FileSystem::Ffs3 => FFS3,
    }
}
