//! Firmware volumes from lists of files, with a name or without, which the readers of volumes and sections read back.
//!
//! Tested in `volume_trials`: `building`, `volume_texts`.

mod attributes;
mod fault;
mod file;
mod file_header;
mod file_system;
mod fill;
mod generated;
mod new_file;
mod section;
mod size;
mod volume;
mod volume_header;
mod volume_name;

pub use attributes::{ALIGNMENTS, Alignment, FileAttributes};
pub use fault::BuildFault;
pub use file_system::FileSystem;
pub use fill::gap;
pub use generated::{MOST_MODULES, VOLUME_LEN, generate};
pub use new_file::{Body, NewFile, NewSection};
pub use size::{file_size, section_size};
pub use volume::{MOST_LEN, build, build_as, build_volume, build_volume3};
pub use volume_header::{HEADER_LEN, VolumeForm, VolumeHead, is_header_length, put_volume_header};
pub use volume_name::{EXT_AT, EXT_HEADER_LEN, VolumeName, first_place, is_placed};
