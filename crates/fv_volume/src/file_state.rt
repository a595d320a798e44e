//! The state of a file by the State byte of its header.
ghost use Rattle.std.specs.Prelude.{◌≡◌};
ghost use Rattle.fv_volume.specs.FileState.{file_state, is_dead, is_whole};

use crate::bits::is_set;

/// `EFI_FILE_HEADER_CONSTRUCTION`.
pub const HEADER_CONSTRUCTION: u8 = 0x01;

/// `EFI_FILE_HEADER_VALID`.
pub const HEADER_VALID: u8 = 0x02;

/// `EFI_FILE_DATA_VALID`.
pub const DATA_VALID: u8 = 0x04;

/// `EFI_FILE_MARKED_FOR_UPDATE`.
pub const MARKED_FOR_UPDATE: u8 = 0x08;

/// `EFI_FILE_DELETED`.
pub const DELETED: u8 = 0x10;

/// `EFI_FILE_HEADER_INVALID`.
pub const HEADER_INVALID: u8 = 0x20;

/// How far the writing of a file has come, by the highest bit of its state.
///
/// PI 1.8, volume 3, file integrity and state.
#[derive(Clone, Copy)]
pub(crate) enum FileState {
    /// No bit is set.
    Blank,
    HeaderConstruction,
    HeaderValid,
    DataValid,
    MarkedForUpdate,
    Deleted,
    HeaderInvalid,
}

/// The state that a State byte encodes. A bit is set if it differs from that of an erased byte.
pub(crate) fn file_state(erased: u8, byte: u8) -> FileState
    ensures { result ≡ file_state erased byte }
{
    let bits = byte ^ erased;
    if is_set(bits, HEADER_INVALID) {
        FileState::HeaderInvalid
    } else if is_set(bits, DELETED) {
        FileState::Deleted
    } else if is_set(bits, MARKED_FOR_UPDATE) {
        FileState::MarkedForUpdate
    } else if is_set(bits, DATA_VALID) {
        FileState::DataValid
    } else if is_set(bits, HEADER_VALID) {
        FileState::HeaderValid
    } else if is_set(bits, HEADER_CONSTRUCTION) {
        FileState::HeaderConstruction
    } else {
        FileState::Blank
    }
}

/// Whether the header never became valid, so that its fields say nothing.
pub(crate) fn is_dead(state: FileState) -> bool
    ensures { result ≡ is_dead state }
{
    matches!(
        state,
        FileState::Blank | FileState::HeaderConstruction | FileState::HeaderInvalid
    )
}

/// Whether header and body are valid.
pub(crate) fn is_whole(state: FileState) -> bool
    ensures { result ≡ is_whole state }
{
    matches!(state, FileState::DataValid | FileState::MarkedForUpdate)
}
