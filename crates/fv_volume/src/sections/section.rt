//! A section as it is handed out.

/// A section of a stream, without its header.
///
/// PI 1.8, volume 3, `EFI_COMMON_SECTION_HEADER`.
#[derive(Clone, Copy)]
pub struct Section {
    /// The Type byte.
    pub kind: u8,
    /// The offset of the first byte after the header, counted from the stream's start.
    pub body_at: u64,
    /// The bytes from there to the section's end: its size less its header.
    pub body_len: u64,
}
