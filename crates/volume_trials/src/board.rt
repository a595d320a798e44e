// One volume byte by byte, and others from their texts.
use pi_base::{Guid, OutOfMemory, Seq};
use std::alloc::Global;
use std::process::Abort;
use std::test::*;
use volume_text::volume_of;

/// The one-PEIM volume of 4,096 bytes before its erased bytes.
pub(crate) static ONE_PEIM: [u8; 115] = [
    // ZeroVector, FileSystemGuid
    0, 0, 0, 0, 0, 0, 0, 0, 0, 0, 0, 0, 0, 0, 0, 0, //
    0x78, 0xe5, 0x8c, 0x8c, 0x3d, 0x8a, 0x1c, 0x4f, 0x99, 0x35, 0x89, 0x61, 0x85, 0xc3, 0x2d, 0xd3,
    // FvLength, Signature, Attributes
    0x00, 0x10, 0, 0, 0, 0, 0, 0, 0x5f, 0x46, 0x56, 0x48, 0x00, 0x08, 0x00, 0x00, //
    // HeaderLength, Checksum, ExtHeaderOffset, Reserved, Revision
    0x48, 0x00, 0xd1, 0xcd, 0x00, 0x00, 0x00, 0x02, //
    // the block map
    0x01, 0, 0, 0, 0x00, 0x10, 0, 0, 0, 0, 0, 0, 0, 0, 0, 0, //
    // the file: Name, checksums, Type, Attributes, Size, State
    0, 0, 0, 0, 0, 0, 0, 0, 0, 0, 0, 0, 0, 0, 0, 0x0a, 0xc5, 0xaa, 0x06, 0x00, 0x2b, 0, 0, 0xf8,
    // the section
    0x13, 0x00, 0x00, 0x19, 0x50, 0x49, 0x41, 0x53, 0x01, 0x01, 0x01, 0x00, 0x02, 0x00, 0x11, 0x01,
    0x61, 0x13, 0x00,
];

/// The GUID 00000000-0000-0000-0000-0000000000NN.
pub(crate) const fn guid(last: u8) -> Guid {
    Guid([0, 0, 0, 0, 0, 0, 0, 0, 0, 0, 0, 0, 0, 0, 0, last])
}

/// The first bytes, all if there are fewer.
pub(crate) fn front(bytes: &[u8], len: usize) -> &[u8] {
    match bytes.get(..len) {
        Some(front) => front,
        None => bytes,
    }
}

/// The text of a volume: its head, a part so many times, and what is after.
pub(crate) type Text = (&'static str, &'static str, usize, &'static str);

fn put_text(whole: &mut Seq<u8>, text: &Text) -> Result<(), OutOfMemory> {
    let (head, part, count, behind) = *text;
    whole.append(head.as_bytes())?;
    for _ in 0..count {
        whole.append(part.as_bytes())?;
    }
    whole.append(behind.as_bytes())
}

/// A text in one piece.
pub(crate) fn whole(rt: &impl Abort, alloc: Global, text: &Text) -> Seq<u8> {
    let mut whole = Seq::new(alloc);
    assert!(rt; put_text(&mut whole, text).is_ok());
    whole
}

/// The volume of a text.
pub(crate) fn made(rt: &impl Abort, alloc: Global, text: &Text) -> Seq<u8> {
    let text = whole(rt, alloc, text);
    assert!(rt; text.len() < 0x1000_0000);
    match volume_of(alloc, text.as_slice()) {
        Ok(volume) => volume,
        Err(_) => panic!(rt; "the text of a volume"),
    }
}

/// The volumes of some texts.
pub(crate) fn all_made(rt: &impl Abort, alloc: Global, texts: &[Text]) -> Seq<Seq<u8>> {
    let mut images = Seq::new(alloc);
    for text in texts {
        assert!(rt; images.push(made(rt, alloc, text)).is_ok());
    }
    images
}
