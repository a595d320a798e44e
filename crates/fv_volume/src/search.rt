//! The search for the files of a volume, forward from place to place.
ghost use Rattle.std.specs.Prelude.{◌≡◌, ◌≢◌, ◌≤◌, ◌+◌, ◌++◌, IfOk, IfErr, OnOk, length, ◌==◌};
ghost use Rattle.std.specs.List.{list_all};
ghost use Rattle.fv_volume.specs.Item.{listed_of};
ghost use Rattle.fv_volume.specs.Search.{ends_at, met_at, IsListing, IsSearchFault};

use crate::fault::{VolCause, VolFault};
use crate::file::FfsFile;
use crate::file_header::HEADER_LEN;
use crate::frame::{Frame, aligned};
use crate::item::{Item, ItemKind, item_at};
use crate::part::part_of;
use crate::volume_header::Format;
use pi_base::{OutOfMemory, Seq};
use std::alloc::Global;

/// How many files of a volume are listed at most (own).
pub const MOST_FILES: usize = 16_384;

// Whether all bytes are erased ones.
fn is_erased(bytes: &[u8], erased: u8) -> bool
    ensures { result ≡ list_all (λ byte. byte == erased) bytes.now }
{
    bytes.iter().all(|byte| *byte == erased)
}

// Whether the search ends at a place.
fn ends_at(image: &[u8], format: Format, at: usize) -> bool
    requires { at + HEADER_LEN ≤ usize.MAX }
    ensures { result ≡ ends_at image.now format at }
{
    image.len() < at + HEADER_LEN || is_erased(part_of(image, at, HEADER_LEN), format.erased)
}

// What is met at a place with so many listed files before it.
fn met_at(image: &[u8], format: Format, count: usize, at: usize) -> Result<Item, VolCause>
    requires { at + HEADER_LEN ≤ length image.now }
    ensures { result ≡ met_at image.now format count at }
{
    let item = item_at(image, format, at)?;
    match item.kind {
        ItemKind::Listed(_) if count >= MOST_FILES => Err(VolCause::TooManyFiles),
        _ => Ok(item),
    }
}

// Adds the file of an item that is listed.
fn list(files: &mut Seq<FfsFile>, kind: ItemKind) -> Result<(), OutOfMemory>
    ensures { OnOk result (files.new ≡ files.old ++ listed_of kind) }
{
    match kind {
        ItemKind::Listed(file) => files.push(file),
        _ => Ok(()),
    }
}

/// The listed files of a volume with this frame, in order of place.
pub(crate) fn files_of(alloc: Global, image: &[u8], frame: &Frame) -> Result<Seq<FfsFile>, VolFault>
    requires { frame.now.start ≤ length image.now + 7 }
    ensures found { IfOk result (IsListing image.now frame.now) }
    ensures refused { IfErr result (λ fault. fault.cause ≢ VolCause.Memory → IsSearchFault image.now frame.now fault) }
{
    let mut files = Seq::new(alloc);
    let mut at = frame.start;
    'search: while !ends_at(image, frame.format, at) {
        match met_at(image, frame.format, files.len(), at) {
            Ok(item) => {
                list(&mut files, item.kind)?;
                at = aligned(item.end);
            }
            Err(cause) => {
                return Err(VolFault {
                    at: at as u64,
                    cause,
                });
            }
        }
    }
    Ok(files)
}
