// What each call reads over the scene in each store, and the calls that write a pool or the boot mode, or replace a PPI.
use crate::acts::{Act, Named};
use crate::board::{ROM, TEMP};
use crate::scene::{END, INSTALLED, NAME, OTHER, Of};
use crate::steps::Step;
use crate::trial::{Case, Trial, all_pass};
use pi_base::MEMORY_PPI;
use std::test::*;
use store_model::{DescKind, EntryList, EntryTold, StoreFault};

// Each entry of the scene, and those that another PPI brings.
const CALLBACK_TOLD: EntryTold = EntryTold {
    node: 296,
    guid: NAME,
    number: 5,
    by: 9,
};

const DISPATCH_TOLD: EntryTold = EntryTold {
    node: 256,
    guid: NAME,
    number: 3,
    by: 9,
};

const PPI_TOLD: EntryTold = EntryTold {
    node: 336,
    guid: NAME,
    number: 7,
    by: 9,
};

const PENDING_TOLD: EntryTold = EntryTold {
    node: 376,
    guid: NAME,
    number: 3,
    by: 9,
};

const OTHER_TOLD: EntryTold = EntryTold {
    node: END + 8,
    guid: NAME,
    number: 8,
    by: 9,
};

const OTHER_PENDING_TOLD: EntryTold = EntryTold {
    node: END + 48,
    guid: NAME,
    number: 3,
    by: 9,
};

// The answer if nothing is read: the bytes stay as they were.
const UNREAD: (bool, [u8; 4]) = (false, [0xff; 4]);

// The other PPI is installed.
const OTHER_INSTALLED: Act = Act::Call(Named::Install(Of::Other), None);

static TRIALS: [Trial<'static>; 7] = [
    // The lists are read by place.
    (
        0x4000,
        0,
        Case::Scene(
            &[],
            &[
                Step::Ppi(0, Some((NAME, 7, 9))),
                Step::Ppi(1, None),
                Step::Note(DescKind::Callback, 0, Some((NAME, 5))),
                Step::Note(DescKind::Callback, 1, None),
                Step::Note(DescKind::Dispatch, 0, Some((NAME, 3))),
                Step::Note(DescKind::Dispatch, 1, None),
                Step::Pending(0, Some((NAME, 3))),
                Step::Pending(1, None),
                Step::Note(DescKind::Ppi, 0, None),
            ],
        ),
    ),
    // Entries are read one after the other.
    (
        0x4000,
        0,
        Case::Scene(
            &[OTHER_INSTALLED],
            &[
                Step::Entries(EntryList::Ppis, (Some(PPI_TOLD), Some(OTHER_TOLD))),
                Step::Entries(EntryList::Callbacks, (Some(CALLBACK_TOLD), None)),
                Step::Entries(EntryList::Dispatches, (Some(DISPATCH_TOLD), None)),
                Step::Entries(
                    EntryList::Pendings,
                    (Some(PENDING_TOLD), Some(OTHER_PENDING_TOLD)),
                ),
            ],
        ),
    ),
    // PPIs are found by GUID.
    (
        0x4000,
        0,
        Case::Scene(
            &[
                Act::Descriptor(Of::Other, (NAME, 8)),
                Act::Descriptor(Of::Dispatch, (NAME, 3)),
                OTHER_INSTALLED,
            ],
            &[
                Step::Nth(NAME, 0, Some((INSTALLED, 7))),
                Step::Nth(NAME, 1, Some((OTHER, 8))),
                Step::Nth(NAME, 2, None),
                Step::Nth(MEMORY_PPI, 0, None),
            ],
        ),
    ),
    // A callback fires once for a new PPI.
    (0x4000, 0, Case::Scene(&[Act::Sweep], &[])),
    // A pool is written within its size.
    (
        0x4000,
        0,
        Case::Scene(
            &[],
            &[
                Step::Write(7, Some(true)),
                Step::Four(TEMP + END + 8 + 6, (true, [0, b'a', b'b', 0])),
                Step::Write(8, Some(false)),
            ],
        ),
    ),
    // The boot mode is in the hand-off HOB.
    (
        0x4000,
        0,
        Case::Scene(
            &[],
            &[
                Step::Mode(0),
                Step::SetMode(0x0102_0304),
                Step::Mode(0x0102_0304),
                Step::Four(0x8000_000c, (true, [4, 3, 2, 1])),
            ],
        ),
    ),
    // A PPI is replaced.
    (
        0x4000,
        0,
        Case::Scene(
            &[
                Act::Call(Named::Reinstall(Of::Installed, Of::Other), None),
                Act::Call(
                    Named::Reinstall(Of::Installed, Of::Other),
                    Some(StoreFault::Missing),
                ),
            ],
            &[],
        ),
    ),
];

#[test]
fn what_stands_in_a_store_is_told(rt: HostRuntime) {
    assert!(rt; all_pass(rt.alloc(), &TRIALS) == Ok(true));
}

// An address and the answer there: of the volume, temporary RAM, RAM, and the end of the addresses.
static PEEKS: [Trial<'static>; 1] = [(
    0x5000,
    0x1000,
    Case::Scene(
        &[],
        &[
            Step::Four(ROM + 12, (true, [0, 0, 0, 1])),
            Step::Four(ROM + 13, UNREAD),
            Step::Four(ROM - 1, UNREAD),
            Step::Four(0x8000_0040, (true, [0x10, 0, 0, 0x80])),
            Step::Four(0x8000_4ffc, (true, [0; 4])),
            Step::Four(0x8000_4ffd, UNREAD),
            Step::Four(0x7fff_ffff, UNREAD),
            Step::Four(0x4001_fffc, (true, [0; 4])),
            Step::Four(0x4001_fffd, UNREAD),
            Step::Four(u64::MAX, UNREAD),
        ],
    ),
)];

#[test]
fn bytes_are_read_in_one_region(rt: HostRuntime) {
    assert!(rt; all_pass(rt.alloc(), &PEEKS) == Ok(true));
}
