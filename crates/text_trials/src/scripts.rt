// The bytes of scripts, made by hand: texts that are cut off, and faults next to their neighbours that pass.
use act_code::{ActCause, read_script};
use std::alloc::Global;
use std::test::*;

// The first fault of what should be a script.
fn fault_of(alloc: Global, bytes: &[u8]) -> Option<(ActCause, u32)> {
    match read_script(alloc, bytes) {
        Ok(_) => None,
        Err(fault) => Some((fault.cause, fault.at)),
    }
}

/// Scripts and bytes that are not scripts, and the first fault: one thing is changed in each.
static FAULTS: [(&[u8], Option<(ActCause, u32)>); 33] = [
    // What is cut off: in the header, before the block, before and in its actions.
    (&[], Some((ActCause::Magic, 0))),
    (&[0x50, 0x49, 0x41, 0x53], Some((ActCause::Magic, 0))),
    (
        &[0x50, 0x49, 0x41, 0x53, 0x01, 0x01, 0x01],
        Some((ActCause::Magic, 0)),
    ),
    (
        &[0x50, 0x49, 0x41, 0x53, 0x01, 0x01, 0x01, 0x00],
        Some((ActCause::Block, 8)),
    ),
    (
        &[0x50, 0x49, 0x41, 0x53, 0x01, 0x01, 0x01, 0x00, 0x02],
        Some((ActCause::Block, 8)),
    ),
    (
        &[0x50, 0x49, 0x41, 0x53, 0x01, 0x01, 0x01, 0x00, 0x02, 0x00],
        Some((ActCause::Action, 10)),
    ),
    (
        &[
            0x50, 0x49, 0x41, 0x53, 0x01, 0x01, 0x01, 0x00, 0x02, 0x00, 0x11, 0x01,
        ],
        Some((ActCause::Action, 10)),
    ),
    (
        &[
            0x50, 0x49, 0x41, 0x53, 0x01, 0x01, 0x01, 0x00, 0x02, 0x00, 0x11, 0x01, 0x61,
        ],
        Some((ActCause::Action, 13)),
    ),
    (
        &[
            0x50, 0x49, 0x41, 0x53, 0x01, 0x01, 0x01, 0x00, 0x02, 0x00, 0x11, 0x01, 0x61, 0x13,
        ],
        Some((ActCause::Action, 13)),
    ),
    // The magic, the version, the phase, the number of blocks and the zero.
    (
        &[0x51, 0x49, 0x41, 0x53, 1, 1, 1, 0, 1, 0, 0x13, 0],
        Some((ActCause::Magic, 0)),
    ),
    (
        &[0x50, 0x49, 0x41, 0x53, 2, 3, 0, 1, 1, 0, 0x13, 0],
        Some((ActCause::Version, 4)),
    ),
    (
        &[0x50, 0x49, 0x41, 0x53, 1, 3, 0, 1, 1, 0, 0x13, 0],
        Some((ActCause::Phase, 5)),
    ),
    (
        &[0x50, 0x49, 0x41, 0x53, 1, 2, 0, 1, 1, 0, 0x13, 0],
        Some((ActCause::Count, 6)),
    ),
    (
        &[0x50, 0x49, 0x41, 0x53, 1, 2, 65, 1, 1, 0, 0x13, 0],
        Some((ActCause::Count, 6)),
    ),
    (
        &[0x50, 0x49, 0x41, 0x53, 1, 2, 1, 1, 1, 0, 0x13, 0],
        Some((ActCause::Count, 7)),
    ),
    (&[0x50, 0x49, 0x41, 0x53, 1, 2, 1, 0, 1, 0, 0x13, 0], None),
    // No actions, 1,025 actions, a last action that is no ret, and a byte left over.
    (
        &[0x50, 0x49, 0x41, 0x53, 1, 1, 1, 0, 0, 0, 0x13, 0],
        Some((ActCause::Block, 8)),
    ),
    (
        &[0x50, 0x49, 0x41, 0x53, 1, 1, 1, 0, 1, 4, 0x13, 0],
        Some((ActCause::Block, 8)),
    ),
    (
        &[0x50, 0x49, 0x41, 0x53, 1, 1, 1, 0, 1, 0, 0x14],
        Some((ActCause::Block, 8)),
    ),
    (
        &[0x50, 0x49, 0x41, 0x53, 1, 1, 1, 0, 1, 0, 0x13, 0, 7],
        Some((ActCause::Count, 12)),
    ),
    // The second block is missing, and at fault.
    (
        &[0x50, 0x49, 0x41, 0x53, 1, 1, 2, 0, 1, 0, 0x13, 0],
        Some((ActCause::Block, 12)),
    ),
    (
        &[
            0x50, 0x49, 0x41, 0x53, 1, 1, 2, 0, 1, 0, 0x13, 0, 1, 0, 0x13, 7,
        ],
        Some((ActCause::Action, 14)),
    ),
    // A code of the other phase, an unknown one, a status above 6, a kind above 2.
    (
        &[0x50, 0x49, 0x41, 0x53, 1, 2, 1, 0, 2, 0, 0x14, 0x13, 0],
        Some((ActCause::Action, 10)),
    ),
    (
        &[0x50, 0x49, 0x41, 0x53, 1, 1, 1, 0, 2, 0, 0x27, 0x13, 0],
        Some((ActCause::Action, 10)),
    ),
    (
        &[0x50, 0x49, 0x41, 0x53, 1, 1, 1, 0, 2, 0, 0x05, 0x13, 0],
        Some((ActCause::Action, 10)),
    ),
    (
        &[0x50, 0x49, 0x41, 0x53, 1, 1, 1, 0, 1, 0, 0x13, 7],
        Some((ActCause::Action, 10)),
    ),
    (
        &[
            0x50, 0x49, 0x41, 0x53, 1, 1, 1, 0, 2, 0, 0x08, 0, 3, 1, 0, 0, 0x13, 0,
        ],
        Some((ActCause::Action, 10)),
    ),
    // A register 16, a block equal to the number of blocks, and a register in its place.
    (
        &[
            0x50, 0x49, 0x41, 0x53, 1, 1, 1, 0, 2, 0, 0x07, 16, 1, 0x13, 0,
        ],
        Some((ActCause::Index, 10)),
    ),
    (
        &[
            0x50, 0x49, 0x41, 0x53, 1, 1, 1, 0, 2, 0, 0x08, 0, 1, 1, 0, 1, 0x13, 0,
        ],
        Some((ActCause::Index, 10)),
    ),
    (
        &[
            0x50, 0x49, 0x41, 0x53, 1, 1, 1, 0, 2, 0, 0x08, 0, 0, 1, 0, 15, 0x13, 0,
        ],
        None,
    ),
    // A skip to the ret, one past it, and one over no action.
    (
        &[
            0x50, 0x49, 0x41, 0x53, 1, 1, 1, 0, 3, 0, 0x12, 0, 1, 0x14, 0x13, 0,
        ],
        None,
    ),
    (
        &[
            0x50, 0x49, 0x41, 0x53, 1, 1, 1, 0, 3, 0, 0x12, 0, 2, 0x14, 0x13, 0,
        ],
        Some((ActCause::Jump, 10)),
    ),
    (
        &[
            0x50, 0x49, 0x41, 0x53, 1, 1, 1, 0, 3, 0, 0x12, 0, 0, 0x14, 0x13, 0,
        ],
        Some((ActCause::Action, 10)),
    ),
];

#[test]
fn each_fault_comes_at_its_place(rt: HostRuntime) {
    for (bytes, fault) in &FAULTS {
        assert!(rt; fault_of(rt.alloc(), bytes) == *fault);
    }
}
