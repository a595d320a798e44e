// HOBs as bytes, both ways, and the places of a list of them.
use hob_codec::{
    Handoff, Hob, HobFault, HobPlace, encode_into, hob_len, one_walk, read_at, round_trip, walk,
};
use pi_base::Guid;
use std::alloc::{AllocError, Global};
use std::process::Abort;
use std::test::*;

const NAME: Guid = Guid([0, 1, 2, 3, 4, 5, 6, 7, 8, 9, 10, 11, 12, 13, 14, 15]);

const HANDOFF: Handoff = Handoff {
    boot_mode: 0x11,
    top: 0x4010_0000,
    bottom: 0x4000_0000,
    free_top: 0x400f_f000,
    free_bottom: 0x4000_00d8,
    end: 0x4000_00d0,
};

// A HOB, its bytes, and the HOB with its body padded.
type Row<'a> = (Hob<'a>, &'a [u8], Hob<'a>);

static ROWS: [Row<'static>; 12] = [
    (
        Hob::Handoff(HANDOFF),
        b"\x01\0\x38\0\0\0\0\0\x09\0\0\0\x11\0\0\0\0\0\x10\x40\0\0\0\0\0\0\0\x40\0\0\0\0\0\xf0\x0f\x40\0\0\0\0\xd8\0\0\x40\0\0\0\0\xd0\0\0\x40\0\0\0\0",
        Hob::Handoff(HANDOFF),
    ),
    (
        Hob::Allocation {
            name: Guid([0; 16]),
            base: 0x400f_f000,
            length: 0x1000,
            memory_type: 4,
        },
        b"\x02\0\x30\0\0\0\0\0\0\0\0\0\0\0\0\0\0\0\0\0\0\0\0\0\0\xf0\x0f\x40\0\0\0\0\0\x10\0\0\0\0\0\0\x04\0\0\0\0\0\0\0",
        Hob::Allocation {
            name: Guid([0; 16]),
            base: 0x400f_f000,
            length: 0x1000,
            memory_type: 4,
        },
    ),
    (
        Hob::Resource {
            owner: NAME,
            kind: 5,
            attributes: 7,
            start: 0x10,
            length: 0x2000,
        },
        b"\x03\0\x30\0\0\0\0\0\0\x01\x02\x03\x04\x05\x06\x07\x08\x09\x0a\x0b\x0c\x0d\x0e\x0f\x05\0\0\0\x07\0\0\0\x10\0\0\0\0\0\0\0\0\x20\0\0\0\0\0\0",
        Hob::Resource {
            owner: NAME,
            kind: 5,
            attributes: 7,
            start: 0x10,
            length: 0x2000,
        },
    ),
    (
        Hob::Named {
            name: NAME,
            body: b"abc",
        },
        b"\x04\0\x20\0\0\0\0\0\0\x01\x02\x03\x04\x05\x06\x07\x08\x09\x0a\x0b\x0c\x0d\x0e\x0fabc\0\0\0\0\0",
        Hob::Named {
            name: NAME,
            body: b"abc\0\0\0\0\0",
        },
    ),
    (
        Hob::Volume {
            base: 0xff80_0000,
            length: 0x80_0000,
        },
        b"\x05\0\x18\0\0\0\0\0\0\0\x80\xff\0\0\0\0\0\0\x80\0\0\0\0\0",
        Hob::Volume {
            base: 0xff80_0000,
            length: 0x80_0000,
        },
    ),
    (
        Hob::Cpu {
            memory: 0x30,
            io: 0x10,
        },
        b"\x06\0\x10\0\0\0\0\0\x30\x10\0\0\0\0\0\0",
        Hob::Cpu {
            memory: 0x30,
            io: 0x10,
        },
    ),
    (
        Hob::Pool { body: b"" },
        b"\x07\0\x08\0\0\0\0\0",
        Hob::Pool { body: b"" },
    ),
    (
        Hob::Pool { body: b"12345678" },
        b"\x07\0\x10\0\0\0\0\x0012345678",
        Hob::Pool { body: b"12345678" },
    ),
    (
        Hob::Pool { body: b"123456789" },
        b"\x07\0\x18\0\0\0\0\x00123456789\0\0\0\0\0\0\0",
        Hob::Pool {
            body: b"123456789\0\0\0\0\0\0\0",
        },
    ),
    (
        Hob::Volume2 {
            base: 0xff80_0000,
            length: 0x1000,
            volume: NAME,
            file: Guid([9; 16]),
        },
        b"\x09\0\x38\0\0\0\0\0\0\0\x80\xff\0\0\0\0\0\x10\0\0\0\0\0\0\0\x01\x02\x03\x04\x05\x06\x07\x08\x09\x0a\x0b\x0c\x0d\x0e\x0f\x09\x09\x09\x09\x09\x09\x09\x09\x09\x09\x09\x09\x09\x09\x09\x09",
        Hob::Volume2 {
            base: 0xff80_0000,
            length: 0x1000,
            volume: NAME,
            file: Guid([9; 16]),
        },
    ),
    (
        Hob::Other {
            kind: 8,
            body: b"z",
        },
        b"\x08\0\x10\0\0\0\0\0z\0\0\0\0\0\0\0",
        Hob::Other {
            kind: 8,
            body: b"z\0\0\0\0\0\0\0",
        },
    ),
    (
        Hob::Other {
            kind: 0xffff,
            body: b"",
        },
        b"\xff\xff\x08\0\0\0\0\0",
        Hob::Other {
            kind: 0xffff,
            body: b"",
        },
    ),
];

// Whether a HOB has these bytes.
fn encodes(alloc: Global, hob: &Hob<'_>, bytes: &[u8]) -> Result<bool, AllocError> {
    let Some(len) = hob_len(hob) else {
        return Ok(false);
    };
    let mut out = vec![in alloc; 0xaau8; len as usize]?;
    encode_into(hob, out.as_mut_slice());
    Ok(out.as_slice() == bytes)
}

// Whether it is a HOB of a type that has no form here.
fn is_other(hob: &Hob<'_>) -> bool {
    matches!(hob, Hob::Other { .. })
}

// Whether these bytes are read as the HOB, up to their end: no two HOBs of known types have the same bytes.
fn decodes(alloc: Global, bytes: &[u8], hob: &Hob<'_>) -> Result<bool, AllocError> {
    let Ok((read, next)) = read_at(bytes, 0) else {
        return Ok(false);
    };
    let is_whole = next == bytes.len() && is_other(&read) == is_other(hob);
    Ok(is_whole && encodes(alloc, &read, bytes)? && encodes(alloc, hob, bytes)?)
}

// Each row both ways.
fn check(rt: &impl Abort, alloc: Global, rows: &[Row<'_>]) -> Result<(), AllocError> {
    for (hob, bytes, again) in rows {
        let is_encoded = encodes(alloc, hob, bytes)?;
        let is_decoded = decodes(alloc, bytes, again)?;
        assert!(rt; is_encoded && is_decoded);
    }
    Ok(())
}

#[test]
fn each_type_goes_both_ways(rt: HostRuntime) {
    assert!(rt; check(&rt, rt.alloc(), &ROWS).is_ok());
    round_trip();
}

// Bytes, a place in them, and the fault there.
static FAULTS: [(&[u8], usize, HobFault); 11] = [
    (b"", 0, HobFault::Short),
    (b"\x07\0\x08\0\0\0\0", 0, HobFault::Short),
    (b"\x07\0\x08\0\0\0\0\0", 1, HobFault::Short),
    (b"\x07\0\x08\0\0\0\0\0", usize::MAX, HobFault::Short),
    (b"\x07\0\0\0\0\0\0\0", 0, HobFault::Length),
    (b"\x07\0\x0c\0\0\0\0\0\0\0\0\0\0\0\0\0", 0, HobFault::Length),
    (b"\x07\0\x10\0\0\0\0\0", 0, HobFault::Length),
    (b"\x06\0\x08\0\0\0\0\0", 0, HobFault::Form),
    (b"\xff\xff\x10\0\0\0\0\0\0\0\0\0\0\0\0\0", 0, HobFault::Form),
    (b"\x04\0\x10\0\0\0\0\0\0\0\0\0\0\0\0\0", 0, HobFault::Form),
    (
        b"\x01\0\x38\0\0\0\0\0\x08\0\0\0\x11\0\0\0\0\0\x10\x40\0\0\0\0\0\0\0\x40\0\0\0\0\0\xf0\x0f\x40\0\0\0\0\xd8\0\0\x40\0\0\0\0\xd0\0\0\x40\0\0\0\0",
        0,
        HobFault::Form,
    ),
];

#[test]
fn faults_come_at_a_place(rt: HostRuntime) {
    for (bytes, at, fault) in &FAULTS {
        assert!(rt; read_at(bytes, *at).err() == Some(*fault));
    }
}

// The heap of a boot with early pages: the hand-off, two pools, an allocation, a CPU, the end, and zeros.
static HEAP: &[u8] =
    b"\x01\0\x38\0\0\0\0\0\x09\0\0\0\x11\0\0\0\0\0\x10\x40\0\0\0\0\0\0\0\x40\0\0\0\0\0\xf0\x0f\x40\0\0\0\0\xd8\0\0\x40\0\0\0\0\xd0\0\0\x40\0\0\0\0\x07\0\x30\0\0\0\0\0\x10\0\0\x80\0\0\0\0\x58\0\0\x40\0\0\0\0\0\0\0\0\0\0\0\0\x3d\x64\x94\xf8\x49\xc4\xd1\x42\x8e\xa8\x85\xbd\xd8\xc6\x5b\xde\x07\0\x28\0\0\0\0\0\0\0\0\0\0\0\0\0\x40\0\0\x40\0\0\0\0\0\0\0\0\0\0\0\0\xff\xff\xff\xff\0\0\0\0\x02\0\x30\0\0\0\0\0\0\0\0\0\0\0\0\0\0\0\0\0\0\0\0\0\0\xf0\x0f\x40\0\0\0\0\0\x10\0\0\0\0\0\0\x04\0\0\0\0\0\0\0\x06\0\x10\0\0\0\0\0\x30\x10\0\0\0\0\0\0\xff\xff\x08\0\0\0\0\0\0\0\0\0\0\0\0\0";

// Its places.
static PLACES: [HobPlace; 5] = [
    HobPlace {
        at: 0,
        kind: 1,
        length: 56,
    },
    HobPlace {
        at: 56,
        kind: 7,
        length: 48,
    },
    HobPlace {
        at: 104,
        kind: 7,
        length: 40,
    },
    HobPlace {
        at: 144,
        kind: 2,
        length: 48,
    },
    HobPlace {
        at: 192,
        kind: 6,
        length: 16,
    },
];

// Whether the heap's list has its places.
fn is_walked(alloc: Global) -> bool {
    match walk(alloc, HEAP) {
        Ok(places) => places.as_slice() == PLACES.as_slice(),
        Err(_) => false,
    }
}

#[test]
fn a_list_is_walked(rt: HostRuntime) {
    assert!(rt; is_walked(rt.alloc()));
    one_walk();
    let rows: [(&[u8], HobFault); 6] = [
        (b"", HobFault::NoEnd),
        (b"\xff\xff\x08\0\0\0\0\0", HobFault::Form),
        (
            b"\x07\0\x08\0\0\0\0\0\xff\xff\x08\0\0\0\0\0",
            HobFault::Form,
        ),
        (&HEAP[..56], HobFault::NoEnd),
        (&HEAP[..60], HobFault::Short),
        (&HEAP[..72], HobFault::Length),
    ];
    for (bytes, fault) in rows {
        assert!(rt; walk(rt.alloc(), bytes).err() == Some(fault));
    }
}
