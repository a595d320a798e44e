//! What is at a place of a volume.
ghost use Rattle.std.specs.Prelude.{◌≡◌, ◌≤◌, ◌+◌, length};
ghost use Rattle.fv_volume.specs.Item.{item_at, item_of};

use crate::fault::VolCause;
use crate::file::FfsFile;
use crate::file_header::{
    FileHeader, HEADER_LEN, STATE_AT, data_is_wrong, file_header, header_sum, size_is_wrong,
};
use crate::file_state::{FileState, file_state, is_dead, is_whole};
use crate::file_type::PAD;
use crate::part::part_of;
use crate::volume_header::Format;

/// What an item is.
#[derive(Clone, Copy)]
pub(crate) enum ItemKind {
    /// A header that is not valid, skipped as 24 bytes (own).
    Dead,
    /// A deleted file, or one whose body is not valid yet (the latter own).
    Skipped,
    /// A pad file.
    Pad,
    /// Any other file.
    Listed(FfsFile),
}

/// What is at a place, and the offset of the first byte after it.
#[derive(Clone, Copy)]
pub(crate) struct Item {
    pub kind: ItemKind,
    pub end: usize,
}

// The file with this header and state at a place, or the first thing that is wrong with it.
fn item_of(
    image: &[u8],
    format: Format,
    at: usize,
    state: FileState,
    header: &FileHeader,
) -> Result<Item, VolCause>
    requires room { at + header.now.len ≤ length image.now }
    requires least { HEADER_LEN ≤ header.now.len }
    ensures { result ≡ item_of image.now format at state header.now }
{
    if header_sum(part_of(image, at, header.len)) != 0 {
        return Err(VolCause::FileSum);
    }
    if size_is_wrong(format, image.len() - at, header) {
        return Err(VolCause::FileSize);
    }
    let end = at + header.size;
    if !is_whole(state) {
        return Ok(Item {
            kind: ItemKind::Skipped,
            end,
        });
    }
    let body_at = at + header.len;
    let body_len = header.size - header.len;
    if data_is_wrong(header, part_of(image, body_at, body_len)) {
        Err(VolCause::DataSum)
    } else if header.kind == PAD {
        Ok(Item {
            kind: ItemKind::Pad,
            end,
        })
    } else {
        let file = FfsFile {
            at: at as u64,
            name: header.name,
            kind: header.kind,
            body_at: body_at as u64,
            body_len: body_len as u64,
        };
        Ok(Item {
            kind: ItemKind::Listed(file),
            end,
        })
    }
}

/// The item at a place, or the first thing that is wrong with it.
pub(crate) fn item_at(image: &[u8], format: Format, at: usize) -> Result<Item, VolCause>
    requires { at + HEADER_LEN ≤ length image.now }
    ensures { result ≡ item_at image.now format at }
{
    let state = file_state(format.erased, image[at + STATE_AT]);
    if is_dead(state) {
        return Ok(Item {
            kind: ItemKind::Dead,
            end: at + HEADER_LEN,
        });
    }
    match file_header(image, format, at) {
        Some(header) => item_of(image, format, at, state, &header),
        None => Err(VolCause::FileSize),
    }
}
