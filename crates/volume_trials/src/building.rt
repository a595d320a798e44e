// Volumes that are built from lists of files, byte by byte, and each fault at its edge.
ghost use Rattle.std.specs.Prelude.{◌≤◌};
ghost use Rattle.fv_volume.specs.declared.build.volume.TheConstants.{MOST_LEN};

use crate::board::{ONE_PEIM, guid};
use crate::volumes::lists;
use fv_volume::build::{
    Body, BuildFault, FileAttributes, MOST_MODULES, NewFile, NewSection, build_volume,
    build_volume3, generate,
};
use fv_volume::file_type::{FREEFORM, PAD, PEIM};
use fv_volume::sections::section_type::RAW;
use fv_volume::{FfsFile, MOST_FILES};
use pi_base::{Guid, Seq};
use std::alloc::Global;
use std::test::*;

/// The three generated modules from byte 72 on, made by another program from the layout.
static THREE_MODULES: [u8; 338] = [
    0x01, 0x00, 0x00, 0x00, 0x00, 0x00, 0x00, 0x00, 0x00, 0x00, 0x00, 0x00, 0x00, 0x00, 0x00, 0x02,
    0x73, 0xaa, 0x06, 0x00, 0x84, 0x00, 0x00, 0xf8, 0x16, 0x00, 0x00, 0x1b, 0x02, 0x02, 0x00, 0x00,
    0x00, 0x00, 0x00, 0x00, 0x00, 0x00, 0x00, 0x00, 0x00, 0x00, 0x00, 0x00, 0x00, 0x08, 0x00, 0x00,
    0x54, 0x00, 0x00, 0x19, 0x50, 0x49, 0x41, 0x53, 0x01, 0x01, 0x01, 0x00, 0x07, 0x00, 0x01, 0x00,
    0x02, 0x00, 0x00, 0x00, 0x00, 0x00, 0x00, 0x00, 0x08, 0x01, 0x00, 0x00, 0x02, 0x00, 0x00, 0x00,
    0x00, 0x00, 0x00, 0x00, 0x00, 0x00, 0x00, 0x00, 0x00, 0x00, 0x00, 0x02, 0x00, 0x09, 0x01, 0x01,
    0x01, 0x04, 0x00, 0x00, 0x00, 0x00, 0x00, 0x00, 0x00, 0x00, 0x08, 0x05, 0x00, 0x00, 0x5d, 0xce,
    0xe8, 0x0a, 0x48, 0xe4, 0x37, 0x44, 0xa8, 0xd7, 0xeb, 0xf5, 0xf1, 0x94, 0xf7, 0x31, 0x04, 0x09,
    0x01, 0x05, 0x13, 0x00, 0xff, 0xff, 0xff, 0xff, 0x01, 0x00, 0x00, 0x00, 0x00, 0x00, 0x00, 0x00,
    0x00, 0x00, 0x00, 0x00, 0x00, 0x00, 0x00, 0x01, 0x96, 0xaa, 0x06, 0x00, 0x62, 0x00, 0x00, 0xf8,
    0x16, 0x00, 0x00, 0x1b, 0x02, 0x02, 0x00, 0x00, 0x00, 0x00, 0x00, 0x00, 0x00, 0x00, 0x00, 0x00,
    0x00, 0x00, 0x00, 0x00, 0x00, 0x08, 0x00, 0x00, 0x32, 0x00, 0x00, 0x19, 0x50, 0x49, 0x41, 0x53,
    0x01, 0x01, 0x01, 0x00, 0x04, 0x00, 0x01, 0x00, 0x01, 0x00, 0x00, 0x00, 0x00, 0x00, 0x00, 0x00,
    0x08, 0x01, 0x00, 0x00, 0x02, 0x00, 0x00, 0x00, 0x00, 0x00, 0x00, 0x00, 0x00, 0x00, 0x00, 0x00,
    0x00, 0x00, 0x00, 0x01, 0x00, 0x09, 0x01, 0x01, 0x13, 0x00, 0xff, 0xff, 0xff, 0xff, 0xff, 0xff,
    0x01, 0x00, 0x00, 0x00, 0x00, 0x00, 0x00, 0x00, 0x00, 0x00, 0x00, 0x00, 0x00, 0x00, 0x00, 0x00,
    0x98, 0xaa, 0x06, 0x00, 0x61, 0x00, 0x00, 0xf8, 0x49, 0x00, 0x00, 0x19, 0x50, 0x49, 0x41, 0x53,
    0x01, 0x01, 0x01, 0x00, 0x07, 0x00, 0x01, 0x00, 0x00, 0x00, 0x00, 0x00, 0x00, 0x00, 0x00, 0x00,
    0x08, 0x01, 0x00, 0x00, 0x02, 0x00, 0x00, 0x00, 0x00, 0x00, 0x00, 0x00, 0x00, 0x00, 0x00, 0x00,
    0x00, 0x00, 0x00, 0x00, 0x00, 0x09, 0x01, 0x01, 0x01, 0x02, 0x00, 0x00, 0x00, 0x40, 0x00, 0x00,
    0x00, 0x00, 0x01, 0x03, 0x00, 0x00, 0x40, 0x00, 0x00, 0x00, 0x00, 0x00, 0x0e, 0x02, 0x03, 0x13,
    0x00, 0xff,
];

/// A length for a volume with one file of 16 MiB.
const LONG: u64 = 0x100_0100;

// A raw section with this body.
fn section(body: Vec<u8>) -> NewSection {
    NewSection {
        kind: RAW,
        body: Seq::from_vec(body),
    }
}

// So many bytes, each the same. If memory runs out they are missing, and the test fails for it; so it is with what follows.
fn filled(alloc: Global, len: usize, byte: u8) -> Vec<u8> {
    let mut body = Vec::new(alloc);
    let _ = body.resize(len, byte);
    body
}

fn new_file(last: u8, kind: u8, sections: Vec<NewSection>) -> NewFile {
    NewFile {
        name: guid(last),
        kind,
        attributes: FileAttributes::new(),
        body: Body::Sections(Seq::from_vec(sections)),
    }
}

// A file with sections of these lengths. Each byte depends on its place.
fn file(alloc: Global, last: u8, kind: u8, lens: &[usize]) -> NewFile {
    let mut sections = Vec::new(alloc);
    for (place, len) in lens.iter().enumerate() {
        let byte = (place % 100) as u8;
        let _ = sections.push(section(filled(alloc, *len, byte)));
    }
    new_file(last, kind, sections)
}

// The file of the one-PEIM volume.
fn one_peim(alloc: Global) -> NewFile {
    let mut body = Vec::new(alloc);
    let _ = body.extend_from_slice(&ONE_PEIM[100..]);
    let mut sections = Vec::new(alloc);
    let _ = sections.push(section(body));
    new_file(0x0a, PEIM, sections)
}

// Whether the bytes are these from a place on.
fn stand(volume: &Seq<u8>, at: usize, bytes: &[u8]) -> bool {
    match volume.as_slice().get(at..) {
        Some(behind) => behind.starts_with(bytes),
        None => false,
    }
}

// Whether all bytes are erased from a place on, up to a volume's length.
fn erased(volume: &Seq<u8>, at: usize, len: usize) -> bool {
    match volume.as_slice().get(at..) {
        Some(behind) => volume.len() == len && behind.iter().all(|byte| *byte == 0xff),
        None => false,
    }
}

// Whether a volume has these bytes at their places, and erased ones from a place on.
fn has(volume: &Seq<u8>, parts: &[(usize, &[u8])], end: usize, len: usize) -> bool {
    let mut is_right = erased(volume, end, len);
    for (at, bytes) in parts {
        is_right = is_right && stand(volume, *at, bytes);
    }
    is_right
}

// The same of what was built.
fn is_built(
    built: Result<Seq<u8>, BuildFault>,
    parts: &[(usize, &[u8])],
    end: usize,
    len: usize,
) -> bool {
    match built {
        Ok(volume) => has(&volume, parts, end, len),
        Err(_) => false,
    }
}

#[test]
fn one_peim_is_built_byte_by_byte(rt: HostRuntime) {
    let files = [one_peim(rt.alloc())];
    assert!(rt;
        is_built(
            build_volume(rt.alloc(), &files, 4096),
            &[(0, &ONE_PEIM)],
            115,
            4096
        )
    );
    // FFS3 differs in its GUID and the header's checksum.
    let parts: [(usize, &[u8]); 3] = [
        (16, &[0x7a, 0xc0, 0x73, 0x54, 0xcb, 0x3d, 0xca, 0x4d]),
        (50, &[0xe8, 0x1e]),
        (52, &ONE_PEIM[52..]),
    ];
    assert!(rt; is_built(build_volume3(rt.alloc(), &files, 4096), &parts, 115, 4096));
    // A volume without files is its header.
    assert!(rt; is_built(build_volume(rt.alloc(), &[], 72), &[], 72, 72));
}

// The first file ends at 113, the pad begins at 120 and ends at 144; so the third begins there.
fn three_files(alloc: Global) -> Result<Seq<u8>, BuildFault> {
    let files = [
        file(alloc, 1, PEIM, &[1, 0, 1]),
        file(alloc, 2, PAD, &[]),
        file(alloc, 3, FREEFORM, &[3]),
    ];
    build_volume(alloc, &files, 200)
}

/// What is in the volume of three files.
static PLACES: [(usize, &[u8]); 4] = [
    (
        96,
        &[5, 0, 0, 0x19, 0, 0, 0, 0, 4, 0, 0, 0x19, 5, 0, 0, 0x19, 2],
    ),
    (113, &[0xff, 0xff, 0xff, 0xff, 0xff, 0xff, 0xff, 0, 0]),
    (143, &[0xf8, 0, 0, 0, 0]),
    (
        159,
        &[3, 0xdc, 0xaa, 0x02, 0x00, 31, 0, 0, 0xf8, 7, 0, 0, 0x19],
    ),
];

/// What is listed of it: the pad is no file.
static LISTED: [FfsFile; 2] = [
    FfsFile {
        at: 72,
        name: Guid([0, 0, 0, 0, 0, 0, 0, 0, 0, 0, 0, 0, 0, 0, 0, 1]),
        kind: PEIM,
        body_at: 96,
        body_len: 17,
    },
    FfsFile {
        at: 144,
        name: Guid([0, 0, 0, 0, 0, 0, 0, 0, 0, 0, 0, 0, 0, 0, 0, 3]),
        kind: FREEFORM,
        body_at: 168,
        body_len: 7,
    },
];

#[test]
fn files_and_sections_stand_at_their_places_and_are_listed(rt: HostRuntime) {
    match three_files(rt.alloc()) {
        Ok(volume) => {
            assert!(rt; has(&volume, &PLACES, 175, 200));
            assert!(rt; lists(rt.alloc(), volume.as_slice(), 200, None, &LISTED));
        }
        Err(_) => panic!(rt; "a volume"),
    }
}

// The need equals the room, and passes it by one byte.
fn faults_of(alloc: Global, files: &[NewFile]) -> [Option<BuildFault>; 3] {
    [
        build_volume(alloc, files, 115).err(),
        build_volume(alloc, files, 114).err(),
        build_volume3(alloc, files, 114).err(),
    ]
}

#[test]
fn a_volume_is_refused_by_one_byte(rt: HostRuntime) {
    let files = [one_peim(rt.alloc())];
    let full = BuildFault::NoRoom {
        need: 115,
        have: 114,
    };
    assert!(rt; faults_of(rt.alloc(), &files) == [None, Some(full), Some(full)]);
}

// So many files without sections.
fn many(alloc: Global, count: usize) -> Vec<NewFile> {
    let mut files = Vec::new(alloc);
    for _ in 0..count {
        let _ = files.push(file(alloc, 0, PEIM, &[]));
    }
    files
}

// The fault of so many files in a volume of this length.
fn fault_of_many(alloc: Global, count: usize, len: u64) -> Option<BuildFault>
    requires most { len ≤ MOST_LEN }
{
    let files = many(alloc, count);
    let fault = build_volume(alloc, &files, len).err();
    drop(files);
    fault
}

#[test]
fn as_many_files_are_built_as_are_listed(rt: HostRuntime) {
    let alloc = rt.alloc();
    let full = BuildFault::NoRoom {
        need: 393_288,
        have: 393_287,
    };
    let faults = [
        fault_of_many(alloc, MOST_FILES, 393_288),
        fault_of_many(alloc, MOST_FILES, 393_287),
        // One more, also if there is no room.
        fault_of_many(alloc, MOST_FILES + 1, 72),
    ];
    assert!(rt; faults == [None, Some(full), Some(BuildFault::TooMany)]);
}

/// The length of the one section's body, what is in a volume of FFS3, and where the erased bytes begin.
static SIZES: [(usize, usize, &[u8], usize); 3] = [
    // A file of 0xfffffe bytes.
    (
        0xff_ffe2,
        91,
        &[0, 0xfe, 0xff, 0xff, 0xf8, 0xe6, 0xff, 0xff, 0x19],
        0x100_0046,
    ),
    // One of a byte more is large in FFS3: Size is 0, and ExtendedSize is at 96.
    (
        0xff_ffe3,
        91,
        &[
            1, 0, 0, 0, 0xf8, 7, 0, 0, 1, 0, 0, 0, 0, 0xe7, 0xff, 0xff, 0x19,
        ],
        0x100_004f,
    ),
    // A section that is a byte too long for its Size field is extended.
    (
        0xff_fffb,
        104,
        &[0xff, 0xff, 0xff, 0x19, 3, 0, 0, 1, 0],
        0x100_006b,
    ),
];

// A long volume of one file with a section of this length.
fn long(alloc: Global, len: usize) -> Result<Seq<u8>, BuildFault> {
    build_volume3(alloc, &[file(alloc, 1, PEIM, &[len])], LONG)
}

#[test]
fn sizes_at_the_top_of_their_field(rt: HostRuntime) {
    for (len, at, bytes, end) in &SIZES {
        let built = long(rt.alloc(), *len);
        assert!(rt; is_built(built, &[(*at, *bytes)], *end, LONG as usize));
    }
}

#[test]
fn a_file_of_ffs2_has_less_than_16_mib(rt: HostRuntime) {
    let alloc = rt.alloc();
    let faults = [
        build_volume(alloc, &[file(alloc, 1, PEIM, &[0xff_ffe2])], LONG).err(),
        build_volume(alloc, &[file(alloc, 1, PEIM, &[0xff_ffe3])], 72).err(),
    ];
    assert!(rt; faults == [None, Some(BuildFault::Size)]);
}

#[test]
fn modules_are_generated_from_their_number(rt: HostRuntime) {
    let parts: [(usize, &[u8]); 4] = [
        (0, &ONE_PEIM[..32]),
        (32, &[0, 0, 0x20, 0, 0, 0, 0, 0]),
        (50, &[0x91, 0xed]),
        (72, &THREE_MODULES),
    ];
    assert!(rt; is_built(generate(rt.alloc(), 3), &parts, 410, 0x20_0000));
    assert!(rt; generate(rt.alloc(), MOST_MODULES).is_ok());
}
