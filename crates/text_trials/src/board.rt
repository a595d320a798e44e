// What several tests share: bytes, texts with a part many times over, and a sink for printed text.
use boot_io::MemSink;
use pi_base::Seq;
use std::alloc::Global;

/// Texts of the tests are shorter.
pub(crate) const MOST_TEXT: usize = 10_000;

/// The parts, one after another. If memory runs out bytes are missing, and the test fails for it; so it is with the next two.
pub(crate) fn joined(alloc: Global, parts: &[&[u8]]) -> Vec<u8> {
    let mut bytes = Vec::new(alloc);
    for part in parts {
        let _ = bytes.extend_from_slice(part);
    }
    bytes
}

/// A front, a part so many times, and what is after.
pub(crate) fn repeated(
    alloc: Global,
    front: &[u8],
    part: &[u8],
    count: usize,
    behind: &[u8],
) -> Vec<u8> {
    let mut bytes = joined(alloc, &[front]);
    for _ in 0..count {
        let _ = bytes.extend_from_slice(part);
    }
    let _ = bytes.extend_from_slice(behind);
    bytes
}

/// A list of these items.
pub(crate) fn list_of<T: Copy>(alloc: Global, items: &[T]) -> Seq<T> {
    let mut list = Seq::new(alloc);
    let _ = list.append(items);
    list
}

/// Whether these are the bytes, if there are any.
pub(crate) fn are(found: Option<Seq<u8>>, bytes: &[u8]) -> bool {
    match found {
        Some(found) => found.as_slice() == bytes,
        None => false,
    }
}

/// An empty sink with room for 4,096 bytes. None if memory runs out.
pub(crate) fn empty_sink(alloc: Global) -> Option<MemSink> {
    MemSink::new(alloc, 4096, Seq::new(alloc)).ok()
}
