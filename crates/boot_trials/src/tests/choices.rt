// Which PEIM starts next, and the hand-off: volumes, what is printed of their boots, and the status.
use super::text::{HAND_OFF, NOTHING, Text};
use super::{Case, EXPRESSIONS, Image, SMALLEST, VOLUME};
use boot_core::Status;

// The first PEIM waits for the PPI of the second.
const ROTATION: Text<'static> = Text {
    head: b"volume 4096
file peim 00000000-0000-0000-0000-00000000000a
depex pei 00000000-0000-0000-0000-000000000001
file peim 00000000-0000-0000-0000-00000000000b
script pei
block
set r0 0x0
desc r1 ppi 00000000-0000-0000-0000-000000000001 r0
install r1
ret Success
end
file peim 00000000-0000-0000-0000-00000000000c
end
",
    ..NOTHING
};

const ROTATION_TEXT: Text<'static> = Text {
    head: b"report 0\npei start 0 00000000-0000-0000-0000-00000000000b absent\ncall desc Success 0x80000040\ncall install Success\nend Success\npei start 0 00000000-0000-0000-0000-00000000000c absent\nend Success\npei start 0 00000000-0000-0000-0000-00000000000a true\nend Success\npei stop\nppis 1\nppi 1 00000000-0000-0000-0000-000000000001 0x0\ncallbacks 0\ndispatches 0\npendings 0\nhobs 3\nhob 1 090000000000000000000180000000000000008000000000000001800000000098000080000000009000008000000000\nhob 7 10000080000000005800008000000000000000000000000000000000000000000000000000000001\nhob 7 0000000000000000400000800000000000000000000000000100000000000000\nhandles 0\nresult NoMemory\n",
    ..NOTHING
};

// The list names a file that is not there, the second PEIM twice, and has bytes of no whole GUID after.
const A_PRIORI: Text<'static> = Text {
    head: b"volume 4096
file freeform pei-apriori
raw 000000000000000000000000000000ff 0000000000000000000000000000000b 0000000000000000000000000000000b 010203
file peim 00000000-0000-0000-0000-00000000000a
file peim 00000000-0000-0000-0000-00000000000b
depex pei false
end
",
    ..NOTHING
};

const A_PRIORI_TEXT: Text<'static> = Text {
    head: b"report 0\npei start 0 00000000-0000-0000-0000-00000000000b apriori\nend Success\npei start 0 00000000-0000-0000-0000-00000000000a absent\nend Success\npei stop\nppis 0\ncallbacks 0\ndispatches 0\npendings 0\nhobs 1\nhob 1 090000000000000000000180000000000000008000000000000001800000000040000080000000003800008000000000\nhandles 0\nresult NoMemory\n",
    ..NOTHING
};

const EXPRESSIONS_BOOT_TEXT: Text<'static> = Text {
    head: b"report 0\npei start 0 00000000-0000-0000-0000-00000000000b true\nend Success\npei stop\nwaiting 0 00000000-0000-0000-0000-00000000000a malformed\nwaiting 0 00000000-0000-0000-0000-00000000000c malformed\nppis 0\ncallbacks 0\ndispatches 0\npendings 0\nhobs 1\nhob 1 090000000000000000000180000000000000008000000000000001800000000040000080000000003800008000000000\nhandles 0\nresult NoMemory\n",
    ..NOTHING
};

// The first PEIM registers for shadow and reports memory, but not when it was registered before.
const SHADOW: Text<'static> = Text {
    head: b"volume 4096
file peim 00000000-0000-0000-0000-00000000000a
script pei
block
shadow
skip_if 1 3
set r0 0x40000000
set r1 0x100000
memory r0 r1
ret Success
end
file peim 00000000-0000-0000-0000-00000000000b
end
",
    ..NOTHING
};

const SHADOW_TEXT: Text<'static> = Text {
    head: b"report 0\npei start 0 00000000-0000-0000-0000-00000000000a absent\ncall shadow Success\ncall memory Success\nend Success\nmigrate 0x80000000 0x40000000\ncore install Success\npei start 0 00000000-0000-0000-0000-00000000000b absent\nend Success\npei start 0 00000000-0000-0000-0000-00000000000a shadow\ncall shadow AlreadyStarted\nend Success\npei stop\nppis 1\nppi core f894643d-c449-42d1-8ea8-85bdd8c65bde 0x0\ncallbacks 0\ndispatches 0\npendings 0\nhobs 3\nhob 1 090000000000000000001040000000000000004000000000000010400000000098000040000000009000004000000000\nhob 7 1000008000000000580000400000000000000000000000003d6494f849c4d1428ea885bdd8c65bde\nhob 7 000000000000000040000040000000000000000000000000ffffffff00000000\nhandles 0\nresult NoIpl\n",
    ..NOTHING
};

// A PEIM registers for shadow, and no module reports memory.
const SHADOW_WITHOUT_MEMORY: Text<'static> = Text {
    head: b"volume 4096
file peim 00000000-0000-0000-0000-00000000000a
script pei
block
shadow
ret Success
end
end
",
    ..NOTHING
};

const SHADOW_WITHOUT_MEMORY_TEXT: Text<'static> = Text {
    head: b"report 0\npei start 0 00000000-0000-0000-0000-00000000000a absent\ncall shadow Success\nend Success\npei stop\nwaiting 0 00000000-0000-0000-0000-00000000000a shadow\nppis 0\ncallbacks 0\ndispatches 0\npendings 0\nhobs 1\nhob 1 090000000000000000000180000000000000008000000000000001800000000040000080000000003800008000000000\nhandles 0\nresult NoMemory\n",
    ..NOTHING
};

// No driver.
const HANDED_OFF: Text<'static> = Text {
    head: b"volume 4096\n",
    turn: HAND_OFF,
    turns: 1,
    tail: b"end
",
};

const HANDOFF_TEXT: Text<'static> = Text {
    head: b"report 0\npei start 0 00000000-0000-0000-0000-00000000000f absent\ncall memory Success\ncall desc Success 0x80000040\ncall install Success\ncall hob Success 0x80000090\nend Success\nmigrate 0x80000000 0x40000000\ncore install Success\npei stop\nhandoff 0x40000000\ndxe volume 0\ndxe stop\nppis 2\nppi 0 0ae8ce5d-e448-4437-a8d7-ebf5f194f731 0x0\nppi core f894643d-c449-42d1-8ea8-85bdd8c65bde 0x0\ncallbacks 0\ndispatches 0\npendings 0\nhobs 6\nhob 1 090000000000000000001040000000000000004000000000000010400000000008010040000000000001004000000000\nhob 7 1000008000000000580000400000000000000000000000005dcee80a48e43744a8d7ebf5f194f731\nhob 7 e000004000000000400000400000000000000000000000000000000000000000\nhob 5 0000f0ff000000000010000000000000\nhob 7 1000008000000000c80000400000000000000000000000003d6494f849c4d1428ea885bdd8c65bde\nhob 7 0000000000000000b0000040000000000000000000000000ffffffff00000000\nhandles 0\nresult Done\n",
    ..NOTHING
};

/// Which PEIM starts next, and the hand-off: each boot, its text and its status.
pub(super) static CHOICES: [(Case<'static>, Text<'static>, Status); 6] = [
    // The first PEIM waits for a PPI that the second installs; the search continues with the third, and then from the front.
    (
        Case {
            images: &[Image {
                volume: ROTATION,
                ..VOLUME
            }],
            ..SMALLEST
        },
        ROTATION_TEXT,
        Status::NoHandoff,
    ),
    // The second PEIM is in the a priori list, and starts before the first.
    (
        Case {
            images: &[Image {
                volume: A_PRIORI,
                ..VOLUME
            }],
            ..SMALLEST
        },
        A_PRIORI_TEXT,
        Status::NoHandoff,
    ),
    // Two PEIMs whose expressions cannot be read, and one between them that starts.
    (
        Case {
            images: &[Image {
                volume: EXPRESSIONS,
                ..VOLUME
            }],
            ..SMALLEST
        },
        EXPRESSIONS_BOOT_TEXT,
        Status::NoHandoff,
    ),
    // A PEIM that registers for shadow starts a second time after the move.
    (
        Case {
            images: &[Image {
                volume: SHADOW,
                ..VOLUME
            }],
            ..SMALLEST
        },
        SHADOW_TEXT,
        Status::NoHandoff,
    ),
    // Without the move it does not.
    (
        Case {
            images: &[Image {
                volume: SHADOW_WITHOUT_MEMORY,
                ..VOLUME
            }],
            ..SMALLEST
        },
        SHADOW_WITHOUT_MEMORY_TEXT,
        Status::NoHandoff,
    ),
    // PEI hands off, and DXE has no driver.
    (
        Case {
            images: &[Image {
                volume: HANDED_OFF,
                ..VOLUME
            }],
            ..SMALLEST
        },
        HANDOFF_TEXT,
        Status::Done,
    ),
];
