// Why there is no memory space map of bytes that are no HOB list.
use crate::board::joined;
use gcd_map::{GcdCause, MOST_BYTES, from_hobs};
use std::alloc::Global;
use std::test::*;

/// A hand-off, a CPU HOB of 32 bits, and a resource without addresses: the first bytes of lists with faults of their own.
static FRONT: [u8; 120] = *b"\x01\0\x38\0\0\0\0\0\x09\0\0\0\0\0\0\0\0\0\0\0\0\0\0\0\0\0\0\0\0\0\0\0\
    \0\0\0\0\0\0\0\0\0\0\0\0\0\0\0\0\0\0\0\0\0\0\0\0\
    \x06\0\x10\0\0\0\0\0\x20\x10\0\0\0\0\0\0\
    \x03\0\x30\0\0\0\0\0\0\0\0\0\0\0\0\0\0\0\0\0\0\0\0\0\0\0\0\0\0\0\0\0\
    \0\0\0\0\0\0\0\0\0\0\0\0\0\0\0\0";

/// What is after so many bytes of that front, and the fault.
static LIST_FAULTS: [(usize, &[u8], GcdCause, u32); 9] = [
    (0, b"", GcdCause::NoEnd, 0),
    (0, b"\xff\xff\x08\0\0\0\0\0", GcdCause::Form, 0),
    (7, b"", GcdCause::Short, 0),
    (120, b"", GcdCause::NoEnd, 120),
    (120, b"\xff\xff\x08\0\0\0\0", GcdCause::Short, 120),
    (120, b"\xff\xff\x07\0\0\0\0\0", GcdCause::Length, 120),
    (
        120,
        b"\xff\xff\x10\0\0\0\0\0\0\0\0\0\0\0\0\0",
        GcdCause::Form,
        120,
    ),
    (56, b"\x06\0\x08\0\0\0\0\0", GcdCause::Form, 56),
    (120, b"\xff\xff\x08\0\0\0\0\0", GcdCause::Range, 72),
];

// The fault of a front of so many bytes, followed by a rest. None if they have a map.
fn fault_behind(alloc: Global, front: usize, rest: &[u8]) -> Option<(GcdCause, u32)> {
    let hobs = joined(alloc, &[FRONT.get(..front)?, rest]);
    if hobs.len() > MOST_BYTES {
        return None;
    }
    match from_hobs(alloc, &hobs) {
        Ok(_) => None,
        Err(fault) => Some((fault.cause, fault.at)),
    }
}

#[test]
fn the_first_fault_of_bytes_is_answered(rt: HostRuntime) {
    for (front, rest, cause, at) in &LIST_FAULTS {
        assert!(rt; fault_behind(rt.alloc(), *front, rest) == Some((*cause, *at)));
    }
}
