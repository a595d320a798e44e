// Volumes and their texts: what is printed of a volume that a text made, of one in which such a volume was changed, and of bytes that are not a volume.
use fv_volume::{VolCause, VolFault};
use pi_base::Seq;
use std::alloc::Global;
use std::test::*;
use volume_print::text_of;
use volume_text::volume_of;

/// Texts as people write them, and what is printed of their volumes.
static PRINTED: [(&str, &str); 18] = [
    ("volume 72\nend\n", "volume 72 ffs2\nend\n"), // no file
    (
        "volume 256 ffs3 attributes 0x4feff\nname B5A1C0DE-93f0-4a5d-8d11-6e2f40715c33\nend",
        "volume 256 ffs3 attributes 0x4f6ff\nname b5a1c0de-93f0-4a5d-8d11-6e2f40715c33\nend\n",
    ), // attributes, beside the erase polarity, and a name
    (
        "volume 64 ffs2 header 64\nend\n",
        "volume 64 ffs2 header 64\nend\n",
    ), // a header with one entry of the block map
    (
        "volume 256 ffs2 header 0x48\nname b5a1c0de-93f0-4a5d-8d11-6e2f40715c33 at 0x60 size 20\nend\n",
        "volume 256 ffs2\nname b5a1c0de-93f0-4a5d-8d11-6e2f40715c33\nend\n",
    ), // the usual places, told
    (
        "volume 512 ffs3 header 80 attributes 4\nname b5a1c0de-93f0-4a5d-8d11-6e2f40715c33 at 80 size 37\nfile 01 00000001-0000-4000-8000-000000000001\nbody 01\nend\n",
        "volume 512 ffs3 header 80 attributes 0x4\nname b5a1c0de-93f0-4a5d-8d11-6e2f40715c33 at 80 size 37\nfile raw 00000001-0000-4000-8000-000000000001\nbody 01\nend\n",
    ), // a longer header, and a name right behind it with room for an entry
    (
        "volume 256\npad 8\nfile 01 {00000001-0000-4000-8000-000000000001} fixed align 0x80\nbody 01020304 05\nfile 3f 00000001-0000-4000-8000-000000000002\nend\n",
        "volume 256 ffs2\npad 8\nfile raw 00000001-0000-4000-8000-000000000001 fixed align 128\nbody 0102030405\nfile 3f 00000001-0000-4000-8000-000000000002\nend\n",
    ), // a pad, attributes, a body, and a type without a name
    (
        "volume 256\npad 3\nfile peim 00000001-0000-4000-8000-000000000002\nfile f0 00000001-0000-4000-8000-00000000006e\nraw 13\nfile peim 00000001-0000-4000-8000-000000000003\nend\n",
        "volume 256 ffs2\npad 8\nfile peim 00000001-0000-4000-8000-000000000002\nfile f0 00000001-0000-4000-8000-00000000006e\nbody 0500001913ffffff\nfile peim 00000001-0000-4000-8000-000000000003\nend\n",
    ), // a pad with the erased bytes behind it, and one with a section
    (
        "volume 512\nfile freeform pei-apriori\nguids memory-ppi\nfile peim 00000001-0000-4000-8000-000000000001\ndepex pei memory-ppi OR not true\nsection 10 4d5a\nend\n",
        "volume 512 ffs2\nfile freeform 1b45cc0a-156a-428a-af62-49864da0e6e6\nguids f894643d-c449-42d1-8ea8-85bdd8c65bde\nfile peim 00000001-0000-4000-8000-000000000001\ndepex pei (f894643d-c449-42d1-8ea8-85bdd8c65bde or not true)\nsection 10 4d5a\nend\n",
    ), // an a priori list, a section by its bytes, and an expression
    (
        "volume 512\nfile freeform dxe-apriori\nraw\nraw 00112233 44556677 8899aabb ccddeeff 00\nfile 02 00000001-0000-4000-8000-000000000002\nguids ffs2\nfile raw dxe-apriori\nbody 00\nend\n",
        "volume 512 ffs2\nfile freeform fc510ee7-ffdc-11d4-bd41-0080c73c8881\nguids\nsection 19 00112233445566778899aabbccddeeff00\nfile freeform 00000001-0000-4000-8000-000000000002\nsection 19 78e58c8c3d8a1c4f9935896185c32dd3\nfile raw fc510ee7-ffdc-11d4-bd41-0080c73c8881\nbody 00\nend\n",
    ), // an empty list, a part of a GUID, and GUIDs in files that are no lists
    (
        "volume 512\nfile driver 00000001-0000-4000-8000-000000000014\ndepex dxe sor true\nscript dxe\n  block\n  log in a volume\n  ret Success\nend\nend\n",
        "volume 512 ffs2\nfile driver 00000001-0000-4000-8000-000000000014\ndepex dxe sor true\nscript dxe\nblock\nlog in a volume\nret Success\nend\nend\n",
    ), // a script
    (
        "volume 512\nfile driver 00000001-0000-4000-8000-000000000014\nsection 1b 0608\nsection 13 0608ff\nend\n",
        "volume 512 ffs2\nfile driver 00000001-0000-4000-8000-000000000014\nsection 1b 0608\nsection 13 0608ff\nend\n",
    ), // an expression of the other phase, and one with a byte behind it
    (
        "volume 512\nfile peim 00000001-0000-4000-8000-000000000001\ndepex pei true\nsection 1b 0608\nfile dxe-core 00000001-0000-4000-8000-000000000002\nsection 13 0608\nend\n",
        "volume 512 ffs2\nfile peim 00000001-0000-4000-8000-000000000001\ndepex pei true\nsection 1b 0608\nfile dxe-core 00000001-0000-4000-8000-000000000002\nsection 13 0608\nend\n",
    ), // a second expression, and one in a file that is no module
    (
        "volume 512\nfile combined 00000001-0000-4000-8000-000000000001\nsection 13 0608ff\nsection 13 0608\nsection 1b 0608\nfile 04 00000001-0000-4000-8000-000000000002\nend\n",
        "volume 512 ffs2\nfile combined 00000001-0000-4000-8000-000000000001\nsection 13 0608ff\nsection 13 0608\ndepex pei true\nfile pei-core 00000001-0000-4000-8000-000000000002\nend\n",
    ), // an expression behind one that is none, and one for the other phase
    (
        "volume 512\nfile driver 00000001-0000-4000-8000-000000000014\nsection 15 530068000000\nui !-1.0~\nsection 15 0000\nsection 15 5300200068000000\nsection 15 530023000000\nsection 15 530000010000\nsection 15 5300\nsection 14 53000000\nend\n",
        "volume 512 ffs2\nfile driver 00000001-0000-4000-8000-000000000014\nui Sh\nui !-1.0~\nsection 15 0000\nsection 15 5300200068000000\nsection 15 530023000000\nsection 15 530000010000\nsection 15 5300\nsection 14 53000000\nend\n",
    ), // names, one of no character, with a space, with a `#`, with a character beyond ASCII, without its zero, and a version
    (
        "volume 1024\nfile volume-image 00000001-0000-4000-8000-000000000003\n  section 10 4d\n  volume 256 ffs3\n    name memory-ppi\n    pad 8\n    file 06 00000001-0000-4000-8000-000000000004\n      script pei\n        block\n        ret Success\n      end\n  end\n  volume 72\n  end\nend\n",
        "volume 1024 ffs2\nfile volume-image 00000001-0000-4000-8000-000000000003\nsection 10 4d\nvolume 256 ffs3\nname f894643d-c449-42d1-8ea8-85bdd8c65bde\npad 8\nfile peim 00000001-0000-4000-8000-000000000004\nscript pei\nblock\nret Success\nend\nend\nvolume 72 ffs2\nend\nend\n",
    ), // volumes in a volume
    (
        "volume 512\nfile freeform 00000001-0000-4000-8000-000000000003\nvolume 72\nend\nfile volume-image 00000001-0000-4000-8000-000000000004\nsection 17 00\nend\n",
        "volume 512 ffs2\nfile freeform 00000001-0000-4000-8000-000000000003\nsection 17 0000000000000000000000000000000078e58c8c3d8a1c4f9935896185c32dd348000000000000005f46564800080000480041ed0000000201000000480000000000000000000000\nfile volume-image 00000001-0000-4000-8000-000000000004\nsection 17 00\nend\n",
    ), // a volume in another file, and bytes that are none
    (
        "volume 4096\nfile volume-image 00000001-0000-4000-8000-000000000003\nvolume 2048\nfile volume-image 00000001-0000-4000-8000-000000000003\nvolume 1024\nfile volume-image 00000001-0000-4000-8000-000000000003\nvolume 512\nfile volume-image 00000001-0000-4000-8000-000000000003\nsection 17 0000000000000000000000000000000078e58c8c3d8a1c4f9935896185c32dd348000000000000005f46564800080000480041ed0000000201000000480000000000000000000000\nend\nend\nend\nend\n",
        "volume 4096 ffs2\nfile volume-image 00000001-0000-4000-8000-000000000003\nvolume 2048 ffs2\nfile volume-image 00000001-0000-4000-8000-000000000003\nvolume 1024 ffs2\nfile volume-image 00000001-0000-4000-8000-000000000003\nvolume 512 ffs2\nfile volume-image 00000001-0000-4000-8000-000000000003\nsection 17 0000000000000000000000000000000078e58c8c3d8a1c4f9935896185c32dd348000000000000005f46564800080000480041ed0000000201000000480000000000000000000000\nend\nend\nend\nend\n",
    ), // a volume deeper than four
    (
        "volume 256\nfile peim 00000001-0000-4000-8000-000000000001\nbody ffffff10 0a000000 4d5a\nfile peim 00000001-0000-4000-8000-000000000002\nbody 06000010 4d5a 0000 00\nfile peim 00000001-0000-4000-8000-000000000003\nbody 06000010 4d5a\nend\n",
        "volume 256 ffs2\nfile peim 00000001-0000-4000-8000-000000000001\nbody ffffff100a0000004d5a\nfile peim 00000001-0000-4000-8000-000000000002\nbody 060000104d5a000000\nfile peim 00000001-0000-4000-8000-000000000003\nsection 10 4d5a\nend\n",
    ), // a section with an extended header that its size does not ask for, bytes left over behind a section, and neither
];

/// The State byte of the first file of a volume without a name: the offset is used for a deleted file, and for one whose header is invalid.
const FIRST_STATE_AT: usize = 72 + 23;

const DELETED: u8 = 0xe8;

const HEADER_INVALID: u8 = 0xd8;

/// A volume with a pad of 32 bytes at the place of its first file.
const BEHIND_PAD: &str = "volume 256\npad 8\nfile peim 00000001-0000-4000-8000-000000000002\nend\n";

/// The offset of that pad.
const PAD_AT: usize = 72;

/// A volume's text, an offset in the volume and other bytes there, and the text that is printed then. Pads are by the tables of `docs/FORMATS.md`.
static CHANGED: [(&str, usize, &[u8], &str); 8] = [
    (
        "volume 256\nfile peim 00000001-0000-4000-8000-000000000001\nsection 10 4d5a\nfile peim 00000001-0000-4000-8000-000000000002\nend\n",
        FIRST_STATE_AT,
        &[DELETED],
        "volume 256 ffs2\nfile f0 00000001-0000-4000-8000-000000000001\nbody 060000104d5affff\nfile peim 00000001-0000-4000-8000-000000000002\nend\n",
    ), // a deleted file, by its name and its body
    (
        "volume 256\npad 0\npad 4\nfile peim 00000001-0000-4000-8000-000000000002\nend\n",
        FIRST_STATE_AT,
        &[HEADER_INVALID],
        "volume 256 ffs2\nfile f0 ffffffff-ffff-ffff-ffff-ffffffffffff\nbody ffffffffffffffffffffffffffffffff04aaf0001c0000f8ffffffffffffffff\nfile peim 00000001-0000-4000-8000-000000000002\nend\n",
    ), // a dead header, and behind it a pad of 28 bytes with its header
    (
        "volume 256\npad 0\nfile peim 00000001-0000-4000-8000-000000000002\npad 0\nend\n",
        FIRST_STATE_AT,
        &[HEADER_INVALID],
        "volume 256 ffs2\npad 0\nfile peim 00000001-0000-4000-8000-000000000002\nend\n",
    ), // a dead header alone; no pad is told behind the last file
    (
        "volume 512\npad 100\nfile volume-image 00000001-0000-4000-8000-000000000003\nvolume 256 ffs3\npad 12\nfile peim 00000001-0000-4000-8000-000000000004\nend\nend\n",
        FIRST_STATE_AT,
        &[DELETED],
        "volume 512 ffs2\npad 104\nfile volume-image 00000001-0000-4000-8000-000000000003\nvolume 256 ffs3\npad 16\nfile peim 00000001-0000-4000-8000-000000000004\nend\nend\n",
    ), // a volume inside, behind a stretch, with a stretch of its own
    (
        BEHIND_PAD,
        PAD_AT,
        &[
            1, 0, 0, 0, 0, 0, 0, 0x40, 0x80, 0, 0, 0, 0, 0, 0, 0x6e, 0xc1, 0xaa, 0xf0, 0, 32, 0, 0,
            0xf8, 0x13, 0xac, 0x10, 0x55, 0xaa, 0, 0xff, 1,
        ],
        "volume 256 ffs2\nfile f0 00000001-0000-4000-8000-00000000006e\nbody 13ac1055aa00ff01\nfile peim 00000001-0000-4000-8000-000000000002\nend\n",
    ), // a pad with a name and a body
    (
        BEHIND_PAD,
        PAD_AT,
        &[
            1, 0, 0, 0, 0, 0, 0, 0x40, 0x80, 0, 0, 0, 0, 0, 0, 0x6e, 0xc1, 0xaa, 0xf0, 0, 32, 0, 0,
            0xf8, 0xff, 0xff, 0xff, 0xff, 0xff, 0xff, 0xff, 0xff,
        ],
        "volume 256 ffs2\nfile f0 00000001-0000-4000-8000-00000000006e\nbody ffffffffffffffff\nfile peim 00000001-0000-4000-8000-000000000002\nend\n",
    ), // a pad with a name alone
    (
        BEHIND_PAD,
        PAD_AT,
        &[
            0xff, 0xff, 0xff, 0xff, 0xff, 0xff, 0xff, 0xff, 0xff, 0xff, 0xff, 0xff, 0xff, 0xff,
            0xff, 0xff, 0, 0xaa, 0xf0, 0, 32, 0, 0, 0xf8, 0xff, 0xff, 0xff, 0xff, 0xff, 0xff, 0xff,
            0xfe,
        ],
        "volume 256 ffs2\nfile f0 ffffffff-ffff-ffff-ffff-ffffffffffff\nbody fffffffffffffffe\nfile peim 00000001-0000-4000-8000-000000000002\nend\n",
    ), // a pad with a body alone
    (
        BEHIND_PAD,
        PAD_AT,
        &[
            0xff, 0xff, 0xff, 0xff, 0xff, 0xff, 0xff, 0xff, 0xff, 0xff, 0xff, 0xff, 0xff, 0xff,
            0xff, 0xff, 0, 0xaa, 0xf0, 0, 32, 0, 0, 0xf8, 0xff, 0xff, 0xff, 0xff, 0xff, 0xff, 0xff,
            0xff,
        ],
        "volume 256 ffs2\npad 8\nfile peim 00000001-0000-4000-8000-000000000002\nend\n",
    ), // a pad with neither
];

// The volume of a text with other bytes at an offset.
fn changed(alloc: Global, text: &str, at: usize, other: &[u8]) -> Option<Seq<u8>> {
    let Ok(made) = volume_of(alloc, text.as_bytes()) else {
        return None;
    };
    let (front, behind) = made.as_slice().split_at(at.min(made.len()));
    let (_, rest) = behind.split_at(other.len().min(behind.len()));
    let mut bytes = Seq::new(alloc);
    for part in [front, other, rest] {
        if bytes.append(part).is_err() {
            return None;
        }
    }
    Some(bytes)
}

// Whether a volume is printed so.
fn is_printed(alloc: Global, volume: &[u8], printed: &str) -> bool {
    match text_of(alloc, volume) {
        Ok(text) => text.as_slice() == printed.as_bytes(),
        Err(_) => false,
    }
}

// The same of a volume with other bytes at an offset.
fn is_printed_changed(alloc: Global, text: &str, at: usize, other: &[u8], printed: &str) -> bool {
    match changed(alloc, text, at, other) {
        Some(volume) => is_printed(alloc, volume.as_slice(), printed),
        None => false,
    }
}

#[test]
fn what_lies_between_files_is_told_by_its_name_and_body(rt: HostRuntime) {
    for (text, at, other, printed) in &CHANGED {
        assert!(rt; is_printed_changed(rt.alloc(), text, *at, other, printed));
    }
}

// The same of the volume of a text.
fn prints(alloc: Global, text: &str, printed: &str) -> bool {
    match volume_of(alloc, text.as_bytes()) {
        Ok(volume) => is_printed(alloc, volume.as_slice(), printed),
        Err(_) => false,
    }
}

// The printed text makes a volume that prints the same text.
#[test]
fn volumes_are_printed_line_by_line(rt: HostRuntime) {
    for (text, printed) in &PRINTED {
        assert!(rt; prints(rt.alloc(), text, printed) && prints(rt.alloc(), printed, printed));
    }
}

#[test]
fn bytes_that_are_no_volume_have_no_text(rt: HostRuntime) {
    let fault = VolFault {
        at: 0,
        cause: VolCause::Short,
    };
    let is_told = match text_of(rt.alloc(), &[]) {
        Ok(_) => false,
        Err(told) => told == fault,
    };
    assert!(rt; is_told);
}
