//! What a volume is built from.
use crate::build::attributes::FileAttributes;
use pi_base::{Guid, Seq};

/// A file to be written. PI 1.8, volume 3, `EFI_FFS_FILE_HEADER`.
#[derive(Drop)]
pub struct NewFile {
    /// The name, by which an a priori file or a dependency expression may call the file.
    pub name: Guid,
    /// The Type byte, one of `crate::file_type` or any other.
    pub kind: u8,
    /// The attributes that its writer chose.
    pub attributes: FileAttributes,
    /// What is after its header.
    pub body: Body,
}

/// What follows the header of a file.
#[derive(Drop)]
pub enum Body {
    /// Sections, in order.
    Sections(Seq<NewSection>),
    /// Bytes as they are, as in a file of type `EFI_FV_FILETYPE_RAW`.
    Bytes(Seq<u8>),
}

/// A section to be written. PI 1.8, volume 3, `EFI_COMMON_SECTION_HEADER`.
#[derive(Drop)]
pub struct NewSection {
    /// The Type byte, one of `crate::sections::section_type` or any other.
    pub kind: u8,
    /// The bytes after the header.
    pub body: Seq<u8>,
}
