// The places of things after the move: volumes, what is printed of their boots, and the status.
use super::text::{NOTHING, Text};
use super::{Case, Image, PAGES, SMALLEST, VOLUME};
use boot_core::Status;

// One descriptor twice, and one whose GUID is in the volume; the second PEIM peeks at what moved.
const SHARED_DESCRIPTOR: Text<'static> = Text {
    head: b"volume 4096
file peim 00000000-0000-0000-0000-00000000000a
script pei
block
set r0 0x1234
desc r1 ppi 00000000-0000-0000-0000-000000000001 r0
install r1
install r1
set r2 0xfff00010
desc r3 ppi at r2 r0
install r3
set r4 0x40000000
set r5 0x100000
memory r4 r5
ret Success
end
file peim 00000000-0000-0000-0000-00000000000b
script pei
block
set r0 0x40000040
peek r0 40
set r0 0x40000070
peek r0 32
set r0 0x400000c0
peek r0 24
ret Success
end
end
",
    ..NOTHING
};

const SHARED_DESCRIPTOR_TEXT: Text<'static> = Text {
    head: b"report 0\npei start 0 00000000-0000-0000-0000-00000000000a absent\ncall desc Success 0x80000040\ncall install Success\ncall install Success\ncall desc Success 0x800000c0\ncall install Success\ncall memory Success\nend Success\nmigrate 0x80000000 0x40000000\ncore install Success\npei start 0 00000000-0000-0000-0000-00000000000b absent\ncall peek Success 10000080000000005800004000000000341200000000000000000000000000000000000000000001\ncall peek Success 9800004000000000400000400000000000000000000000000000000000000000\ncall peek Success 10000080000000001000f0ff000000003412000000000000\nend Success\npei stop\nppis 4\nppi 0 00000000-0000-0000-0000-000000000001 0x1234\nppi 0 00000000-0000-0000-0000-000000000001 0x1234\nppi 0 8c8ce578-8a3d-4f1c-9935-896185c32dd3 0x1234\nppi core f894643d-c449-42d1-8ea8-85bdd8c65bde 0x0\ncallbacks 0\ndispatches 0\npendings 0\nhobs 8\nhob 1 090000000000000000001040000000000000004000000000000010400000000060010040000000005801004000000000\nhob 7 10000080000000005800004000000000341200000000000000000000000000000000000000000001\nhob 7 9800004000000000400000400000000000000000000000000000000000000000\nhob 7 e000004000000000400000400000000000000000000000000000000000000000\nhob 7 10000080000000001000f0ff000000003412000000000000\nhob 7 3801004000000000c00000400000000000000000000000000000000000000000\nhob 7 1000008000000000200100400000000000000000000000003d6494f849c4d1428ea885bdd8c65bde\nhob 7 000000000000000008010040000000000000000000000000ffffffff00000000\nhandles 0\nresult NoIpl\n",
    ..NOTHING
};

// A PPI and a pool with numbers that are addresses of the heap; the second PEIM peeks at both.
const NUMBERS: Text<'static> = Text {
    head: b"volume 4096
file peim 00000000-0000-0000-0000-00000000000a
script pei
block
set r0 0x80000123
desc r1 ppi 00000000-0000-0000-0000-000000000001 r0
pool r2 0x8
store r2 0x0 2301008000000000
install r1
set r4 0x40000000
set r5 0x100000
memory r4 r5
ret Success
end
file peim 00000000-0000-0000-0000-00000000000b
script pei
block
set r0 0x40000050
peek r0 8
set r0 0x40000070
peek r0 8
ret Success
end
end
",
    ..NOTHING
};

const NUMBERS_TEXT: Text<'static> = Text {
    head: b"report 0\npei start 0 00000000-0000-0000-0000-00000000000a absent\ncall desc Success 0x80000040\ncall pool Success 0x80000070\ncall store Success\ncall install Success\ncall memory Success\nend Success\nmigrate 0x80000000 0x40000000\ncore install Success\npei start 0 00000000-0000-0000-0000-00000000000b absent\ncall peek Success 2301004000000000\ncall peek Success 2301008000000000\nend Success\npei stop\nppis 2\nppi 0 00000000-0000-0000-0000-000000000001 0x40000123\nppi core f894643d-c449-42d1-8ea8-85bdd8c65bde 0x0\ncallbacks 0\ndispatches 0\npendings 0\nhobs 6\nhob 1 09000000000000000000104000000000000000400000000000001040000000000001004000000000f800004000000000\nhob 7 10000080000000005800004000000000230100400000000000000000000000000000000000000001\nhob 7 2301008000000000\nhob 7 d800004000000000400000400000000000000000000000000000000000000000\nhob 7 1000008000000000c00000400000000000000000000000003d6494f849c4d1428ea885bdd8c65bde\nhob 7 0000000000000000a8000040000000000000000000000000ffffffff00000000\nhandles 0\nresult NoIpl\n",
    ..NOTHING
};

// A dispatch notification whose PPI is installed before memory is there.
const QUEUE_OVER_THE_MOVE: Text<'static> = Text {
    head: b"volume 4096
file peim 00000000-0000-0000-0000-00000000000a
script pei
block
set r0 0x7
desc r1 dispatch 00000000-0000-0000-0000-000000000001 block 1
notify r1
desc r2 ppi 00000000-0000-0000-0000-000000000001 r0
install r2
set r4 0x40000000
set r5 0x100000
memory r4 r5
ret Success
block
log n
ret Success
end
end
",
    ..NOTHING
};

const QUEUE_OVER_THE_MOVE_TEXT: Text<'static> = Text {
    head: b"report 0\npei start 0 00000000-0000-0000-0000-00000000000a absent\ncall desc Success 0x80000040\ncall notify Success\ncall desc Success 0x80000098\ncall install Success\ncall memory Success\nend Success\nmigrate 0x80000000 0x40000000\ncore install Success\nnotify dispatch 0 00000000-0000-0000-0000-00000000000a 00000000-0000-0000-0000-000000000001\nlog n\nend Success\npei stop\nppis 2\nppi 0 00000000-0000-0000-0000-000000000001 0x7\nppi core f894643d-c449-42d1-8ea8-85bdd8c65bde 0x0\ncallbacks 0\ndispatches 1\ndispatch 00000000-0000-0000-0000-000000000001 0 1\npendings 0\nhobs 8\nhob 1 090000000000000000001040000000000000004000000000000010400000000070010040000000006801004000000000\nhob 7 40000080000000005800004000000000010000000000000000000000000000000000000000000001\nhob 7 0000000000000000400000400000000000000000000000000000000000000000\nhob 7 1000008000000000b000004000000000070000000000000000000000000000000000000000000001\nhob 7 4801004000000000980000400000000000000000000000000000000000000000\nhob 7 0000000000000000000000000000000000000000000000000000000000000000\nhob 7 1000008000000000300100400000000000000000000000003d6494f849c4d1428ea885bdd8c65bde\nhob 7 000000000000000018010040000000000000000000000000ffffffff00000000\nhandles 0\nresult NoIpl\n",
    ..NOTHING
};

// A page before and after the move, the boot mode, and a HOB of the CPU.
const PAGES_MODE_CPU: Text<'static> = Text {
    head: b"volume 4096
file peim 00000000-0000-0000-0000-00000000000a
script pei
block
pages r0 4 0x1
set r4 0x40000000
set r5 0x100000
memory r4 r5
ret Success
end
file peim 00000000-0000-0000-0000-00000000000b
script pei
block
pages r0 4 0x1
set r1 0x11
boot_mode set r1
hob 6 3010000000000000
ret Success
end
end
",
    ..NOTHING
};

const PAGES_MODE_CPU_TEXT: Text<'static> = Text {
    head: b"report 0\npei start 0 00000000-0000-0000-0000-00000000000a absent\ncall pages NotAvailableYet\ncall memory Success\nend Success\nmigrate 0x80000000 0x40000000\ncore install Success\npei start 0 00000000-0000-0000-0000-00000000000b absent\ncall pages Success 0x400ff000\ncall boot_mode Success\ncall hob Success 0x400000c0\nend Success\npei stop\nppis 1\nppi core f894643d-c449-42d1-8ea8-85bdd8c65bde 0x0\ncallbacks 0\ndispatches 0\npendings 0\nhobs 5\nhob 1 09000000110000000000104000000000000000400000000000f00f4000000000d800004000000000d000004000000000\nhob 7 1000008000000000580000400000000000000000000000003d6494f849c4d1428ea885bdd8c65bde\nhob 7 000000000000000040000040000000000000000000000000ffffffff00000000\nhob 2 0000000000000000000000000000000000f00f400000000000100000000000000400000000000000\nhob 6 3010000000000000\nhandles 0\nresult NoIpl\n",
    ..NOTHING
};

// A page before the move, whose address is that of a PPI; the second PEIM peeks at its HOB and the descriptor.
const EARLY_PAGES: Text<'static> = Text {
    head: b"volume 4096
file peim 00000000-0000-0000-0000-00000000000a
script pei
block
pages r0 4 0x1
desc r1 ppi 00000000-0000-0000-0000-000000000001 r0
install r1
set r4 0x40000000
set r5 0x100000
memory r4 r5
ret Success
end
file peim 00000000-0000-0000-0000-00000000000b
script pei
block
set r0 0x40000050
peek r0 16
set r0 0x40000070
peek r0 24
ret Success
end
end
",
    ..NOTHING
};

const EARLY_PAGES_TEXT: Text<'static> = Text {
    head: b"report 0\npei start 0 00000000-0000-0000-0000-00000000000a absent\ncall pages Success 0x8000f000\ncall desc Success 0x80000070\ncall install Success\ncall memory Success\nend Success\nmigrate 0x80000000 0x40000000\ncore install Success\npei start 0 00000000-0000-0000-0000-00000000000b absent\ncall peek Success 00f00f40000000000010000000000000\ncall peek Success 1000008000000000880000400000000000f00f4000000000\nend Success\npei stop\nppis 2\nppi 0 00000000-0000-0000-0000-000000000001 0x400ff000\nppi core f894643d-c449-42d1-8ea8-85bdd8c65bde 0x0\ncallbacks 0\ndispatches 0\npendings 0\nhobs 6\nhob 1 09000000000000000000104000000000000000400000000000f00f400000000020010040000000001801004000000000\nhob 2 0000000000000000000000000000000000f00f400000000000100000000000000400000000000000\nhob 7 1000008000000000880000400000000000f00f400000000000000000000000000000000000000001\nhob 7 f800004000000000700000400000000000000000000000000000000000000000\nhob 7 1000008000000000e00000400000000000000000000000003d6494f849c4d1428ea885bdd8c65bde\nhob 7 0000000000000000c8000040000000000000000000000000ffffffff00000000\nhandles 0\nresult NoIpl\n",
    ..NOTHING
};

/// The places of things after the move: each boot, its text and its status.
pub(super) static MOVES: [(Case<'static>, Text<'static>, Status); 5] = [
    // One descriptor is installed twice. The move shifts it once, and a script peeks at its new place.
    (
        Case {
            images: &[Image {
                volume: SHARED_DESCRIPTOR,
                ..VOLUME
            }],
            ..SMALLEST
        },
        SHARED_DESCRIPTOR_TEXT,
        Status::NoHandoff,
    ),
    // Numbers in a pool that are addresses of the heap stay as they are over the move.
    (
        Case {
            images: &[Image {
                volume: NUMBERS,
                ..VOLUME
            }],
            ..SMALLEST
        },
        NUMBERS_TEXT,
        Status::NoHandoff,
    ),
    // A dispatch notification that is queued before the move runs after it.
    (
        Case {
            images: &[Image {
                volume: QUEUE_OVER_THE_MOVE,
                ..VOLUME
            }],
            ..SMALLEST
        },
        QUEUE_OVER_THE_MOVE_TEXT,
        Status::NoHandoff,
    ),
    // Pages after the move, the boot mode, and a HOB of the CPU.
    (
        Case {
            images: &[Image {
                volume: PAGES_MODE_CPU,
                ..VOLUME
            }],
            ..SMALLEST
        },
        PAGES_MODE_CPU_TEXT,
        Status::NoHandoff,
    ),
    // Pages before the move, which the move shifts.
    (
        Case {
            plan: PAGES,
            images: &[Image {
                volume: EARLY_PAGES,
                ..VOLUME
            }],
            ..SMALLEST
        },
        EARLY_PAGES_TEXT,
        Status::NoHandoff,
    ),
];
