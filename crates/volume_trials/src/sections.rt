// Streams of sections that are read, and the first fault of others.
use crate::board::front;
use fv_volume::sections::section_type::{PE32, RAW};
use fv_volume::sections::{SecCause, SecFault, Section, one_reading, read_sections};
use std::alloc::Global;
use std::test::*;

/// The section of the one-PEIM volume as an extended one, of 23 bytes.
const EXTENDED_RAW: [u8; 23] = [
    0xff, 0xff, 0xff, 0x19, 0x17, 0x00, 0x00, 0x00, 0x50, 0x49, 0x41, 0x53, 0x01, 0x01, 0x01, 0x00,
    0x02, 0x00, 0x11, 0x01, 0x61, 0x13, 0x00,
];

/// Two sections, and three bytes after them.
const TWO: [u8; 15] = [
    5, 0, 0, 0x10, 0xaa, 1, 2, 3, 4, 0, 0, 0x19, 0xff, 0xff, 0xff,
];

// Whether these are the sections.
fn are(found: &[Section], rows: &[Row]) -> bool {
    let mut is_right = found.len() == rows.len();
    for (section, row) in found.iter().zip(rows) {
        is_right = is_right && (section.kind, section.body_at, section.body_len) == *row;
    }
    is_right
}

// Whether the bytes are read as these sections, or have this fault.
fn is_so(alloc: Global, bytes: &[u8], want: &Result<&[Row], SecFault>) -> bool {
    match read_sections(alloc, bytes) {
        Ok(found) => match want {
            Ok(rows) => are(found.as_slice(), rows),
            Err(_) => false,
        },
        Err(fault) => match want {
            Ok(_) => false,
            Err(want) => fault == *want,
        },
    }
}

/// The section of the one-PEIM volume alone.
const ONE_SECTION: [u8; 19] = [
    0x13, 0x00, 0x00, 0x19, 0x50, 0x49, 0x41, 0x53, 0x01, 0x01, 0x01, 0x00, 0x02, 0x00, 0x11, 0x01,
    0x61, 0x13, 0x00,
];

/// The first of the two sections.
const FIRST: [u8; 5] = [5, 0, 0, 0x10, 0xaa];

/// The type of a section, the offset of its body and its length.
type Row = (u8, u64, u64);

/// Streams, and their sections, or the place and the cause of their fault.
static STREAMS: [(&[u8], Result<&[Row], SecFault>); 13] = [
    // No bytes; a whole section; an extended one, and one of the least size.
    (&[], Ok(&[])),
    (&ONE_SECTION, Ok(&[(RAW, 4, 15)])),
    (&EXTENDED_RAW, Ok(&[(RAW, 8, 15)])),
    (&[0xff, 0xff, 0xff, 0x10, 8, 0, 0, 0], Ok(&[(PE32, 8, 0)])),
    // The second section begins at the next multiple of four; three bytes may be left at the end.
    (&TWO, Ok(&[(PE32, 4, 1), (RAW, 12, 0)])),
    // The rounded place may be past the end.
    (&FIRST, Ok(&[(PE32, 4, 1)])),
    // A size below its header's length.
    (
        &[3, 0, 0, 0x19],
        Err(SecFault {
            at: 0,
            cause: SecCause::Size,
        }),
    ),
    (
        &[0xff, 0xff, 0xff, 0x19, 7, 0, 0, 0],
        Err(SecFault {
            at: 0,
            cause: SecCause::Size,
        }),
    ),
    // The top of both size fields.
    (
        &[0xfe, 0xff, 0xff, 0x19, 0, 0, 0, 0],
        Err(SecFault {
            at: 0,
            cause: SecCause::Size,
        }),
    ),
    (
        &[0xff, 0xff, 0xff, 0x19, 0xff, 0xff, 0xff, 0xff],
        Err(SecFault {
            at: 0,
            cause: SecCause::Size,
        }),
    ),
    // Sections that are not opened, after a sound one; a wrong size comes before the type.
    (
        &[4, 0, 0, 0x19, 4, 0, 0, 1],
        Err(SecFault {
            at: 4,
            cause: SecCause::Compressed,
        }),
    ),
    (
        &[4, 0, 0, 0x19, 4, 0, 0, 2],
        Err(SecFault {
            at: 4,
            cause: SecCause::GuidDefined,
        }),
    ),
    (
        &[4, 0, 0, 0x19, 5, 0, 0, 1],
        Err(SecFault {
            at: 4,
            cause: SecCause::Size,
        }),
    ),
];

#[test]
fn sound_streams_are_read_and_each_fault_comes_at_its_place(rt: HostRuntime) {
    for (bytes, want) in &STREAMS {
        assert!(rt; is_so(rt.alloc(), bytes, want));
    }
    one_reading();
}

// 257 sections without bodies.
fn many() -> [u8; 1028] {
    let mut bytes = [0u8; 1028];
    for i in 0..257usize {
        bytes[4 * i] = 4;
        bytes[4 * i + 3] = RAW;
    }
    bytes
}

// How many sections are read. 0 if the bytes are refused.
fn count_of(alloc: Global, bytes: &[u8]) -> usize {
    match read_sections(alloc, bytes) {
        Ok(sections) => sections.len(),
        Err(_) => 0,
    }
}

#[test]
fn the_most_sections_are_read(rt: HostRuntime) {
    let mut bytes = many();
    let fault = SecFault {
        at: 1024,
        cause: SecCause::TooMany,
    };
    // 256 sections are read, and the next one is too many, even if it has another fault.
    assert!(rt; count_of(rt.alloc(), front(&bytes, 1024)) == 256);
    assert!(rt; is_so(rt.alloc(), &bytes, &Err(fault)));
    bytes[1024] = 0;
    assert!(rt; is_so(rt.alloc(), &bytes, &Err(fault)));
}
