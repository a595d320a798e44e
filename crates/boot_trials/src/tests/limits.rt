// The limits on volumes, frames and actions: volumes, what is printed of their boots, and the status.
use super::text::{NOTHING, Text};
use super::{Case, Image, SMALLEST, VOLUME};
use boot_core::Status;

// A callback that reinstalls the PPI that it waits for.
const CALLBACK_AGAIN: Text<'static> = Text {
    head: b"volume 4096
file peim 00000000-0000-0000-0000-00000000000a
script pei
block
set r0 0x0
desc r1 callback 00000000-0000-0000-0000-000000000001 block 1
notify r1
desc r2 ppi 00000000-0000-0000-0000-000000000001 r0
install r2
ret Success
block
locate r2 r3 00000000-0000-0000-0000-000000000001 0
reinstall r2 r2
ret Success
end
end
",
    ..NOTHING
};

const FRAMES_FUEL_50_PLAN: &[u8; 80] =
    b"temp 0x80000000 0x10000\nram 0x40000000 0x4000000\nvolume 0xfff00000 a.fv\nfuel 50\n";

const FRAMES_FUEL_50_TEXT: Text<'static> = Text {
    head: b"report 0\npei start 0 00000000-0000-0000-0000-00000000000a absent\ncall desc Success 0x80000040\ncall notify Success\ncall desc Success 0x80000098\ncall install Success\n",
    turn: b"notify callback 0 00000000-0000-0000-0000-00000000000a 00000000-0000-0000-0000-000000000001\ncall locate Success 0x0\ncall reinstall Success\n",
    turns: 22,
    tail: b"notify callback 0 00000000-0000-0000-0000-00000000000a 00000000-0000-0000-0000-000000000001\ncall locate Success 0x0\nppis 1\nppi 0 00000000-0000-0000-0000-000000000001 0x0\ncallbacks 1\ncallback 00000000-0000-0000-0000-000000000001 0 1\ndispatches 0\npendings 0\nhobs 5\nhob 1 0900000000000000000001800000000000000080000000000000018000000000f000008000000000e800008000000000\nhob 7 20000080000000005800008000000000010000000000000000000000000000000000000000000001\nhob 7 0000000000000000400000800000000000000000000000000000000000000000\nhob 7 1000008000000000b000008000000000000000000000000000000000000000000000000000000001\nhob 7 0000000000000000980000800000000000000000000000000000000000000000\nhandles 0\nresult Spent\n",
};

const FRAMES_FUEL_131_PLAN: &[u8; 81] =
    b"temp 0x80000000 0x10000\nram 0x40000000 0x4000000\nvolume 0xfff00000 a.fv\nfuel 131\n";

const FRAMES_FUEL_131_TEXT: Text<'static> = Text {
    head: b"report 0\npei start 0 00000000-0000-0000-0000-00000000000a absent\ncall desc Success 0x80000040\ncall notify Success\ncall desc Success 0x80000098\ncall install Success\n",
    turn: b"notify callback 0 00000000-0000-0000-0000-00000000000a 00000000-0000-0000-0000-000000000001\ncall locate Success 0x0\ncall reinstall Success\n",
    turns: 63,
    tail: b"ppis 1\nppi 0 00000000-0000-0000-0000-000000000001 0x0\ncallbacks 1\ncallback 00000000-0000-0000-0000-000000000001 0 1\ndispatches 0\npendings 0\nhobs 5\nhob 1 0900000000000000000001800000000000000080000000000000018000000000f000008000000000e800008000000000\nhob 7 20000080000000005800008000000000010000000000000000000000000000000000000000000001\nhob 7 0000000000000000400000800000000000000000000000000000000000000000\nhob 7 1000008000000000b000008000000000000000000000000000000000000000000000000000000001\nhob 7 0000000000000000980000800000000000000000000000000000000000000000\nhandles 0\nresult Deep\n",
};

const FRAMES_FUEL_1000000_PLAN: &[u8; 85] =
    b"temp 0x80000000 0x10000\nram 0x40000000 0x4000000\nvolume 0xfff00000 a.fv\nfuel 1000000\n";

const FRAMES_FUEL_1000000_TEXT: Text<'static> = Text {
    head: b"report 0\npei start 0 00000000-0000-0000-0000-00000000000a absent\ncall desc Success 0x80000040\ncall notify Success\ncall desc Success 0x80000098\ncall install Success\n",
    turn: b"notify callback 0 00000000-0000-0000-0000-00000000000a 00000000-0000-0000-0000-000000000001\ncall locate Success 0x0\ncall reinstall Success\n",
    turns: 63,
    tail: b"ppis 1\nppi 0 00000000-0000-0000-0000-000000000001 0x0\ncallbacks 1\ncallback 00000000-0000-0000-0000-000000000001 0 1\ndispatches 0\npendings 0\nhobs 5\nhob 1 0900000000000000000001800000000000000080000000000000018000000000f000008000000000e800008000000000\nhob 7 20000080000000005800008000000000010000000000000000000000000000000000000000000001\nhob 7 0000000000000000400000800000000000000000000000000000000000000000\nhob 7 1000008000000000b000008000000000000000000000000000000000000000000000000000000001\nhob 7 0000000000000000980000800000000000000000000000000000000000000000\nhandles 0\nresult Deep\n",
};

// A pool that fills the heap, one of 8 bytes, and one of 0xfff8.
const ROOM: Text<'static> = Text {
    head: b"volume 4096
file peim 00000000-0000-0000-0000-00000000000a
script pei
block
pool r0 0x3fb8
pool r1 0x8
pool r2 0xfff8
ret OutOfResources
end
end
",
    ..NOTHING
};

const ROOM_PLAN: &[u8; 71] =
    b"temp 0x80000000 0x4000\nram 0x40000000 0x4000000\nvolume 0xfff00000 a.fv\n";

const ROOM_TEXT: Text<'static> = Text {
    head: b"report 0\npei start 0 00000000-0000-0000-0000-00000000000a absent\ncall pool Success 0x80000040\ncall pool OutOfResources\ncall pool OutOfResources\nend OutOfResources\npei stop\nppis 0\ncallbacks 0\ndispatches 0\npendings 0\nhobs 2\nhob 1 09000000000000000040008000000000000000800000000000400080000000000040008000000000f83f008000000000\nhob 7 ",
    turn: b"0000000000000000000000000000000000000000000000000000000000000000",
    turns: 509,
    tail: b"000000000000000000000000000000000000000000000000\nhandles 0\nresult NoMemory\n",
};

// Two pages, and one page twice, of a region of one page.
const ONE_PAGE: Text<'static> = Text {
    head: b"volume 4096
file peim 00000000-0000-0000-0000-00000000000a
script pei
block
pages r0 4 0x2
pages r0 4 0x1
pages r0 4 0x1
ret Success
end
end
",
    ..NOTHING
};

const ONE_PAGE_PLAN: &[u8; 85] =
    b"temp 0x80000000 0x10000\nram 0x40000000 0x4000000\nvolume 0xfff00000 a.fv\npages 0x1000\n";

const ONE_PAGE_TEXT: Text<'static> = Text {
    head: b"report 0\npei start 0 00000000-0000-0000-0000-00000000000a absent\ncall pages OutOfResources\ncall pages Success 0x8000f000\ncall pages OutOfResources\nend Success\npei stop\nppis 0\ncallbacks 0\ndispatches 0\npendings 0\nhobs 2\nhob 1 090000000000000000f0008000000000000000800000000000f000800000000070000080000000006800008000000000\nhob 2 0000000000000000000000000000000000f000800000000000100000000000000400000000000000\nhandles 0\nresult NoMemory\n",
    ..NOTHING
};

/// The limits on volumes, frames and actions: each boot, its text and its status.
pub(super) static FRAMES: [(Case<'static>, Text<'static>, Status); 5] = [
    // A callback that reinstalls its own PPI, until the fuel is spent.
    (
        Case {
            plan: FRAMES_FUEL_50_PLAN,
            images: &[Image {
                volume: CALLBACK_AGAIN,
                ..VOLUME
            }],
            ..SMALLEST
        },
        FRAMES_FUEL_50_TEXT,
        Status::Spent,
    ),
    // The same boot, until the most frames are running.
    (
        Case {
            plan: FRAMES_FUEL_131_PLAN,
            images: &[Image {
                volume: CALLBACK_AGAIN,
                ..VOLUME
            }],
            ..SMALLEST
        },
        FRAMES_FUEL_131_TEXT,
        Status::Deep,
    ),
    // The same boot with more fuel.
    (
        Case {
            plan: FRAMES_FUEL_1000000_PLAN,
            images: &[Image {
                volume: CALLBACK_AGAIN,
                ..VOLUME
            }],
            ..SMALLEST
        },
        FRAMES_FUEL_1000000_TEXT,
        Status::Deep,
    ),
    // A pool that fills the heap, and two that have no room.
    (
        Case {
            plan: ROOM_PLAN,
            images: &[Image {
                volume: ROOM,
                ..VOLUME
            }],
            ..SMALLEST
        },
        ROOM_TEXT,
        Status::NoHandoff,
    ),
    // A page region of one page, which is taken once.
    (
        Case {
            plan: ONE_PAGE_PLAN,
            images: &[Image {
                volume: ONE_PAGE,
                ..VOLUME
            }],
            ..SMALLEST
        },
        ONE_PAGE_TEXT,
        Status::NoHandoff,
    ),
];
