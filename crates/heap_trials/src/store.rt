// Worked calls of both stores: addresses and bytes from the tables of HOBs and of the heap.
use crate::board::{RAM, TEMP};
use crate::scene::NAME;
use crate::steps::Step;
use crate::trial::{Case, Trial, all_pass};
use pi_base::Span;
use std::test::*;
use store_model::{Desc, Firing, Pool, StoreFault};

// With no byte free: the hand-off HOB after its header: its version, boot mode, memory, what is free, and the end HOB. After it the header of the pool.
const FILLED: &[u8] =
    b"\x09\0\0\0\0\0\0\0\0\x40\0\x80\0\0\0\0\0\0\0\x80\0\0\0\0\0\x40\0\x80\0\0\0\0\0\x40\0\x80\0\0\0\0\xf8\x3f\0\x80\0\0\0\0\x07\0\xc0\x3f\0\0\0\0";

// The HOB of a CPU, a GUID HOB with its body padded, and the end HOB.
const TWO_HOBS: &[u8] =
    b"\x06\0\x10\0\0\0\0\0\x30\x10\0\0\0\0\0\0\x04\0\x20\0\0\0\0\x000123456789abcdefxyz\0\0\0\0\0\xff\xff\x08\0\0\0\0\0";

// A PPI that has moved. The descriptor: its flags, the address of its GUID, the value, and the GUID. Its node with its header, and the header of the next
// descriptor.
const MOVED_PPI: &[u8] =
    b"\x10\0\0\x80\0\0\0\0\x58\0\0\x40\0\0\0\0\x34\x12\0\0\0\0\0\0\0\0\0\0\0\0\0\0\0\0\0\0\0\0\0\x01\x07\0\x28\0\0\0\0\0\0\0\0\0\0\0\0\0\x40\0\0\x40\0\0\0\0\0\0\0\0\0\0\0\0\x09\0\0\0\0\0\0\0\x07\0\x30\0\0\0\0\0";

// Permanent memory in the upper half of RAM.
const UPPER: Span = Span {
    base: 0x4001_0000,
    len: 0x1_0000,
};

// The list at the new base, of 144 bytes. The hand-off HOB: the end of memory, its base, what is free, and the end HOB. The page's HOB: it is at the end of the
// new heap. The GUID HOB with the bytes that look like an address, and the end HOB.
const MOVED: &[u8] =
    b"\x01\0\x38\0\0\0\0\0\x09\0\0\0\0\0\0\0\0\0\x02\x40\0\0\0\0\0\0\x01\x40\0\0\0\0\0\xf0\x01\x40\0\0\0\0\x90\0\x01\x40\0\0\0\0\x88\0\x01\x40\0\0\0\0\x02\0\x30\0\0\0\0\0\0\0\0\0\0\0\0\0\0\0\0\0\0\0\0\0\0\xf0\x01\x40\0\0\0\0\0\x10\0\0\0\0\0\0\x04\0\0\0\0\0\0\0\x04\0\x20\0\0\0\0\x000123456789abcdef\x40\0\0\x80\0\0\0\0\xff\xff\x08\0\0\0\0\0";

// The HOB of the page.
const EARLY_PAGE: &[u8] =
    b"\x02\0\x30\0\0\0\0\0\0\0\0\0\0\0\0\0\0\0\0\0\0\0\0\0\0\xf0\0\x80\0\0\0\0\0\x10\0\0\0\0\0\0\x04\0\0\0\0\0\0\0";

static TRIALS: [Trial<'static>; 12] = [
    // A pool of all that is free leaves no room.
    (
        0x4000,
        0,
        Case::Steps(&[
            Step::Pool(
                16_312,
                Ok(Pool {
                    offset: 0x40,
                    size: 16_312,
                }),
            ),
            Step::Pool(8, Err(StoreFault::Full)),
            Step::Pool(65_528, Err(StoreFault::Full)),
            Step::Bytes(TEMP + 8, FILLED),
        ]),
    ),
    // A pool fits to the byte, and has at most 65,520 bytes.
    (80, 0, Case::Steps(&[Step::Fit(8, true)])),
    (79, 0, Case::Steps(&[Step::Fit(8, false)])),
    (80, 0, Case::Steps(&[Step::Fit(9, false)])),
    (88, 0, Case::Steps(&[Step::Fit(9, true)])),
    (0x1_1000, 0, Case::Steps(&[Step::Fit(65_520, true)])),
    (0x1_1000, 0, Case::Steps(&[Step::Fit(65_521, false)])),
    // HOBs follow one another.
    (
        0x4000,
        0,
        Case::Steps(&[
            Step::Cpu(Ok(TEMP + 56)),
            Step::Named(b"xyz", Ok(TEMP + 72)),
            Step::Bytes(TEMP + 56, TWO_HOBS),
        ]),
    ),
    // A descriptor moves with its node.
    (
        0x1_0000,
        0,
        Case::Steps(&[
            Step::Install(0x1234, Some(Desc { offset: 0x40 })),
            Step::Desc(7, Ok(Desc { offset: 0x98 })),
            Step::Plan(RAM.base, RAM.len, Ok(())),
            Step::Migrate(Some((TEMP, 0x4000_0000))),
            Step::Bytes(0x4000_0040, MOVED_PPI),
        ]),
    ),
    // Pages come from the end of memory: there are none without a region, and no move without a plan.
    (
        0x1_0000,
        0,
        Case::Steps(&[
            Step::Pages(1, Err(StoreFault::NotYet)),
            Step::Migrate(None),
            Step::Plan(0x4000_0001, 0x1_0000, Err(StoreFault::Bad)),
            Step::Plan(0x4000_0000, 0x1_0000, Ok(())),
            Step::Plan(0x4000_0000, 0x1_0000, Err(StoreFault::Bad)),
            Step::Migrate(Some((TEMP, 0x4000_0000))),
            Step::CoreInstall,
            Step::Pages(1, Ok(0x4000_f000)),
            Step::Cpu(Ok(0x4000_00c0)),
        ]),
    ),
    // A queued pair leaves once.
    (
        0x1_0000,
        0,
        Case::Steps(&[
            Step::Notify(Some(Desc { offset: 0x40 })),
            Step::Pop(None),
            Step::Install(7, Some(Desc { offset: 0x98 })),
            Step::Pop(Some(Firing {
                entry: 3,
                ppi: Desc { offset: 0x98 },
                guid: NAME,
                value: 7,
            })),
            Step::Pop(None),
        ]),
    ),
    // The volumes of HOBs are read.
    (
        0x4000,
        0,
        Case::Steps(&[
            Step::Bases(&[]),
            Step::Volume(0xfff0_0000, Ok(0x8000_0038)),
            Step::Volume(0xffe0_0000, Ok(0x8000_0050)),
            Step::Bases(&[0xfff0_0000, 0xffe0_0000]),
        ]),
    ),
];

#[test]
fn both_stores_answer_as_worked_out(rt: HostRuntime) {
    assert!(rt; all_pass(rt.alloc(), &TRIALS) == Ok(true));
}

// With early pages, which come from the end of their region.
static EARLY_TRIALS: [Trial<'static>; 2] = [
    (
        0x1_0000,
        0x3000,
        Case::Steps(&[
            Step::Pages(4, Err(StoreFault::Full)),
            Step::Pages(1, Ok(0x8000_f000)),
            Step::Pages(2, Ok(0x8000_d000)),
            Step::Pages(1, Err(StoreFault::Full)),
            Step::Bytes(TEMP + 56, EARLY_PAGE),
        ]),
    ),
    // They move, and bytes that look like an address stay.
    (
        0x8000,
        0x3000,
        Case::Steps(&[
            Step::Pages(1, Ok(TEMP + 0x7000)),
            Step::Named(b"\x40\0\0\x80\0\0\0\0", Ok(TEMP + 104)),
            Step::Plan(UPPER.base, UPPER.len, Ok(())),
            Step::Migrate(Some((TEMP, 0x4001_0000))),
            Step::Unread(TEMP),
            Step::Bytes(0x4001_0000, MOVED),
        ]),
    ),
];

#[test]
fn early_pages_come_from_the_end_of_their_region_and_move(rt: HostRuntime) {
    assert!(rt; all_pass(rt.alloc(), &EARLY_TRIALS) == Ok(true));
}
