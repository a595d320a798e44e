// The files that are in a volume, and the first fault of its header and of its files.
use crate::board::{ONE_PEIM, Text, front, guid, made};
use fv_volume::file_type::{PEIM, RAW};
use fv_volume::{FfsFile, MOST_FILES, VolCause, VolFault, one_reading, places, read_volume};
use pi_base::{Guid, Seq, put_u16, put_u64, sum16};
use std::alloc::Global;
use std::process::Abort;
use std::test::*;

/// The length of the one-PEIM volume.
const LEN: usize = 4096;

/// A raw file of 24 bytes with a name of zeros.
static EMPTY_FILE: [u8; 24] = [
    0, 0, 0, 0, 0, 0, 0, 0, 0, 0, 0, 0, 0, 0, 0, 0, 0xe7, 0xaa, 0x01, 0x00, 0x18, 0, 0, 0xf8,
];

/// The name of the file system FFS3.
static FFS3: [u8; 16] = [
    0x7a, 0xc0, 0x73, 0x54, 0xcb, 0x3d, 0xca, 0x4d, 0xbd, 0x6f, 0x1e, 0x96, 0x89, 0xe7, 0x34, 0x9a,
];

// A PEIM of the name that the one-PEIM volume has.
const fn peim(at: u64, body_at: u64, body_len: u64) -> FfsFile {
    FfsFile {
        at,
        name: guid(0x0a),
        kind: PEIM,
        body_at,
        body_len,
    }
}

const THE_PEIM: FfsFile = FfsFile {
    at: 72,
    name: Guid([0, 0, 0, 0, 0, 0, 0, 0, 0, 0, 0, 0, 0, 0, 0, 0x0a]),
    kind: PEIM,
    body_at: 96,
    body_len: 19,
};

// Writes bytes over those at a place.
fn put(bytes: &mut [u8; LEN], at: usize, text: &[u8]) {
    let mut place = at;
    for byte in text {
        if place < LEN {
            bytes[place] = *byte;
            place += 1;
        }
    }
}

// The one-PEIM volume with bytes changed: each place, and its byte after it.
fn changed(changes: &[u8]) -> [u8; LEN] {
    let mut bytes = [0xff; LEN];
    put(&mut bytes, 0, &ONE_PEIM);
    let mut place = LEN;
    for byte in changes {
        if place < LEN {
            bytes[place] = *byte;
            place = LEN;
        } else {
            place = usize::from(*byte);
        }
    }
    bytes
}

// Makes the words of the header of 72 bytes sum to 0.
fn seal(bytes: &mut [u8; LEN]) {
    put_u16(bytes, 50, 0);
    let sum = sum16(&bytes[..72]);
    put_u16(bytes, 50, 0u16.wrapping_sub(sum));
}

// Whether the bytes are a volume of this length and name with these files.
pub(crate) fn lists(
    alloc: Global,
    bytes: &[u8],
    len: u64,
    name: Option<Guid>,
    files: &[FfsFile],
) -> bool {
    match read_volume(alloc, bytes) {
        Ok(volume) => volume.len == len && volume.name == name && volume.files.as_slice() == files,
        Err(_) => false,
    }
}

// Whether the bytes have this fault.
fn fails(alloc: Global, bytes: &[u8], at: u64, cause: VolCause) -> bool {
    match read_volume(alloc, bytes) {
        Ok(_) => false,
        Err(fault) => fault == VolFault { at, cause },
    }
}

/// Places in the one-PEIM volume, each with the byte that it gets, and the fault.
type Row = (&'static [u8], u64, VolCause);

/// Faults of a header, and of the file at 72.
static FAULTS: [Row; 21] = [
    (&[50, 0xd0], 50, VolCause::HeaderSum),
    // Each cause together with a later one: the first in order is returned.
    (&[40, 0x2d, 55, 1], 40, VolCause::Signature),
    (&[55, 1, 16, 0], 55, VolCause::Revision),
    (&[16, 0, 33, 0x11], 16, VolCause::FileSystem),
    (&[32, 0x01, 48, 0x49], 32, VolCause::Length),
    (&[39, 0x80], 32, VolCause::Length),
    // HeaderLength is odd, below 64, above FvLength.
    (&[48, 0x49], 48, VolCause::HeaderLength),
    (&[48, 0x3e], 48, VolCause::HeaderLength),
    (&[48, 0x02, 49, 0x10], 48, VolCause::HeaderLength),
    // An extended header inside the header, and one whose size passes FvLength.
    (&[52, 70, 50, 0x8b], 52, VolCause::ExtHeader),
    (&[52, 96, 50, 0x71], 52, VolCause::ExtHeader),
    (&[88, 0xc4, 89, 0xab], 72, VolCause::FileSum),
    (&[88, 0xc4, 95, 0xe0], 72, VolCause::FileSum),
    (&[89, 0xab], 72, VolCause::DataSum),
    (&[89, 0xab, 95, 0xf0], 72, VolCause::DataSum),
    (&[88, 0x85, 91, 0x40, 89, 0x1d], 72, VolCause::DataSum),
    // A pad's checksum is tested too.
    (&[88, 0xdb, 90, 0xf0, 89, 0xab], 72, VolCause::DataSum),
    // Size 23; 4,025 of 4,024 bytes; a large file under FFS2.
    (&[88, 0xd9, 92, 0x17], 72, VolCause::FileSize),
    (&[88, 0x28, 92, 0xb9, 93, 0x0f], 72, VolCause::FileSize),
    (&[88, 0xc4, 91, 0x01], 72, VolCause::FileSize),
    // A deleted file's size is tested.
    (&[88, 0xd9, 92, 0x17, 95, 0xe0], 72, VolCause::FileSize),
];

#[test]
fn each_fault_comes_in_its_order_and_at_its_place(rt: HostRuntime) {
    for (changes, at, cause) in &FAULTS {
        assert!(rt; fails(rt.alloc(), &changed(changes), *at, *cause));
    }
    one_reading();
    places();
}

/// So many bytes of it, and the fault.
static ENDS: [(usize, u64, VolCause); 4] = [
    (4095, 32, VolCause::Length),
    (64, 32, VolCause::Length),
    (63, 0, VolCause::Short),
    (0, 0, VolCause::Short),
];

#[test]
fn bytes_that_end_before_their_volume_are_refused(rt: HostRuntime) {
    let bytes = changed(&[]);
    for (len, at, cause) in &ENDS {
        assert!(rt; fails(rt.alloc(), front(&bytes, *len), *at, *cause));
    }
}

/// Places in the one-PEIM volume, each with the byte that it gets, and whether the file is listed.
static STATES: [(&[u8], bool); 12] = [
    // The volume as it is; marked for update; bits above 0x20 say nothing.
    (&[], true),
    (&[95, 0xf0], true),
    (&[95, 0xb8], true),
    // A body with its checksum.
    (&[88, 0x85, 91, 0x40, 89, 0x1c], true),
    // Polarity 0, under which the State byte of the other says header invalid.
    (&[45, 0, 51, 0xd5, 95, 0x07], true),
    (&[45, 0, 51, 0xd5], false),
    // Deleted, half-written, in construction, invalid, and with no bit.
    (&[95, 0xe0, 89, 0xab], false),
    (&[95, 0xfc, 89, 0xab], false),
    (&[95, 0xfe, 88, 0], false),
    (&[95, 0xc0, 88, 0], false),
    (&[95, 0xff, 88, 0], false),
    // A pad file.
    (&[88, 0xdb, 90, 0xf0], false),
];

// The one file, or no file.
const fn peims(is_listed: bool) -> &'static [FfsFile] {
    if is_listed { &[THE_PEIM] } else { &[] }
}

#[test]
fn files_are_listed_by_their_states(rt: HostRuntime) {
    for (changes, is_listed) in &STATES {
        let files = peims(*is_listed);
        assert!(rt; lists(rt.alloc(), &changed(changes), 4096, None, files));
    }
}

#[test]
fn a_second_file_and_one_at_the_end_are_listed_or_refused(rt: HostRuntime) {
    // The file ends at 115, and the next one begins at 120.
    let mut bytes = changed(&[]);
    put(&mut bytes, 120, &EMPTY_FILE);
    let second = FfsFile {
        at: 120,
        name: guid(0),
        kind: RAW,
        body_at: 144,
        body_len: 0,
    };
    assert!(rt; lists(rt.alloc(), &bytes, 4096, None, &[THE_PEIM, second]));
    bytes[136] = 0;
    assert!(rt; fails(rt.alloc(), &bytes, 120, VolCause::FileSum));
    // A file may end with the volume.
    let whole = changed(&[88, 0x29, 92, 0xb8, 93, 0x0f]);
    assert!(rt; lists(rt.alloc(), &whole, 4096, None, &[peim(72, 96, 4000)]));
}

/// A pad file, which holds an extended header.
static EXTENDED: [u8; 48] = [
    0xff, 0xff, 0xff, 0xff, 0xff, 0xff, 0xff, 0xff, 0xff, 0xff, 0xff, 0xff, 0xff, 0xff, 0xff, 0xff,
    0xf4, 0xaa, 0xf0, 0x00, 0x2c, 0, 0, 0xf8, //
    0, 0, 0, 0, 0, 0, 0, 0, 0, 0, 0, 0, 0, 0, 0, 0x33, //
    20, 0, 0, 0, 0xff, 0xff, 0xff, 0xff,
];

#[test]
fn files_stand_behind_the_extended_header(rt: HostRuntime) {
    // The pad file is at 72, and the search begins after the extended header.
    let mut bytes = changed(&[50, 0x71, 52, 96]);
    put(&mut bytes, 72, &EXTENDED);
    put(&mut bytes, 120, &ONE_PEIM[72..]);
    let name = Some(guid(0x33));
    assert!(rt; lists(rt.alloc(), &bytes, 4096, name, &[peim(120, 144, 19)]));
    // ExtHeaderSize below 20.
    bytes[112] = 19;
    assert!(rt; fails(rt.alloc(), &bytes, 52, VolCause::ExtHeader));
}

// The one-PEIM volume as FFS3, its file large, with this ExtendedSize, header checksum and FvLength.
fn large(size: u64, checksum: u8, len: u64) -> [u8; LEN] {
    let mut bytes = changed(&[88, checksum, 91, 0x01, 92, 0]);
    put(&mut bytes, 16, &FFS3);
    put_u64(&mut bytes, 32, len);
    put_u64(&mut bytes, 96, size);
    put(&mut bytes, 104, &ONE_PEIM[96..]);
    seal(&mut bytes);
    bytes
}

#[test]
fn a_file_that_is_not_large_may_stand_under_ffs3(rt: HostRuntime) {
    let mut bytes = large(51, 0xbc, 4096);
    put(&mut bytes, 72, &ONE_PEIM[72..]);
    put(&mut bytes, 115, &[0xff; 8]);
    assert!(rt; bytes[50] == 0xe8 && bytes[51] == 0x1e);
    assert!(rt; lists(rt.alloc(), &bytes, 4096, None, &[THE_PEIM]));
}

/// ExtendedSize, the header's checksum, FvLength, and the length of the body or the fault of the file.
static LARGE: [(u64, u8, u64, Result<u64, VolCause>); 8] = [
    // Its Size says nothing.
    (51, 0xbc, 4096, Ok(19)),
    // It ends with the volume, and a byte after it.
    (51, 0xbc, 123, Ok(19)),
    (51, 0xbc, 122, Err(VolCause::FileSize)),
    // Its header ends with the volume, and a byte after it.
    (32, 0xcf, 104, Ok(0)),
    (32, 0xcf, 103, Err(VolCause::FileSize)),
    // A size below the header, and the top of the field.
    (31, 0xd0, 4096, Err(VolCause::FileSize)),
    (u64::MAX, 0xf7, 4096, Err(VolCause::FileSize)),
    (51, 0xbd, 4096, Err(VolCause::FileSum)),
];

// Whether the file of a volume is large with a body of this length, or has this fault.
fn is_large(alloc: Global, bytes: &[u8], len: u64, want: Result<u64, VolCause>) -> bool {
    match want {
        Ok(body_len) => lists(alloc, bytes, len, None, &[peim(72, 104, body_len)]),
        Err(cause) => fails(alloc, bytes, 72, cause),
    }
}

#[test]
fn large_files_are_listed(rt: HostRuntime) {
    for (size, checksum, len, want) in &LARGE {
        let bytes = large(*size, *checksum, *len);
        assert!(rt; is_large(rt.alloc(), &bytes, *len, *want));
    }
}

/// The most raw files, with 24 erased bytes after them.
static MOST: Text = (
    "volume 393312\n",
    "file raw 00000000-0000-0000-0000-000000000000\n",
    MOST_FILES,
    "end\n",
);

// The volume of the most files with one more in the place of its last bytes.
fn with_one_more(rt: &impl Abort, alloc: Global, most: &[u8]) -> Seq<u8> {
    let mut bytes = Seq::new(alloc);
    assert!(rt; bytes.append(front(most, 393_288)).is_ok());
    assert!(rt; bytes.append(&EMPTY_FILE).is_ok());
    bytes
}

// How many files are listed. None if the bytes are refused.
fn count_of(alloc: Global, bytes: &[u8]) -> usize {
    match read_volume(alloc, bytes) {
        Ok(volume) => volume.files.len(),
        Err(_) => 0,
    }
}

// Whether the volume is that of one file too many, which is refused.
fn is_too_many(alloc: Global, bytes: &[u8]) -> bool {
    bytes.len() == 393_312
        && bytes[72..96] == EMPTY_FILE[..]
        && fails(alloc, bytes, 393_288, VolCause::TooManyFiles)
}

#[test]
fn the_most_files_are_listed(rt: HostRuntime) {
    let alloc = rt.alloc();
    let most = made(&rt, alloc, &MOST);
    assert!(rt; count_of(alloc, most.as_slice()) == 16_384);
    let more = with_one_more(&rt, alloc, most.as_slice());
    assert!(rt; is_too_many(alloc, more.as_slice()));
}
