// Which driver starts when: volumes, what is printed of their boots, and the status.
use super::text::{HAND_OFF, NOTHING, Text};
use super::{Case, Image, SMALLEST, VOLUME};
use boot_core::Status;

// The first driver waits for the protocol of driver 6; drivers 2, 3 and 4 come before or after others.
const COMPANIONS: Text<'static> = Text {
    head: b"volume 4096\n",
    turn: HAND_OFF,
    turns: 1,
    tail: b"file driver 00000000-0000-0000-0000-000000000006
depex dxe true
script dxe
block
set r0 0x55
install new r1 00000000-0000-0000-0000-000000000021 r0
ret Success
end
file driver 00000000-0000-0000-0000-000000000001
depex dxe 00000000-0000-0000-0000-000000000021
file driver 00000000-0000-0000-0000-000000000002
depex dxe before 00000000-0000-0000-0000-000000000001
script dxe
block
locate r0 r1 00000000-0000-0000-0000-000000000021
uninstall r0 00000000-0000-0000-0000-000000000021 r1
ret Success
end
file driver 00000000-0000-0000-0000-000000000003
depex dxe after 00000000-0000-0000-0000-000000000001
file driver 00000000-0000-0000-0000-000000000004
depex dxe before 00000000-0000-0000-0000-000000000003
end
",
};

const COMPANIONS_TEXT: Text<'static> = Text {
    head: b"report 0\npei start 0 00000000-0000-0000-0000-00000000000f absent\ncall memory Success\ncall desc Success 0x80000040\ncall install Success\ncall hob Success 0x80000090\nend Success\nmigrate 0x80000000 0x40000000\ncore install Success\npei stop\nhandoff 0x40000000\ndxe volume 0\ndxe start 0 00000000-0000-0000-0000-000000000006 true\ncall install Success 0x1\nend Success\ndxe start 0 00000000-0000-0000-0000-000000000002 before\ncall locate Success 0x55\ncall uninstall Success\nend Success\ndxe start 0 00000000-0000-0000-0000-000000000001 true\nend Success\ndxe start 0 00000000-0000-0000-0000-000000000004 before\nend Success\ndxe start 0 00000000-0000-0000-0000-000000000003 after\nend Success\ndxe stop\nppis 2\nppi 0 0ae8ce5d-e448-4437-a8d7-ebf5f194f731 0x0\nppi core f894643d-c449-42d1-8ea8-85bdd8c65bde 0x0\ncallbacks 0\ndispatches 0\npendings 0\nhobs 6\nhob 1 090000000000000000001040000000000000004000000000000010400000000008010040000000000001004000000000\nhob 7 1000008000000000580000400000000000000000000000005dcee80a48e43744a8d7ebf5f194f731\nhob 7 e000004000000000400000400000000000000000000000000000000000000000\nhob 5 0000f0ff000000000010000000000000\nhob 7 1000008000000000c80000400000000000000000000000003d6494f849c4d1428ea885bdd8c65bde\nhob 7 0000000000000000b0000040000000000000000000000000ffffffff00000000\nhandles 0\nresult Done\n",
    ..NOTHING
};

// Drivers 1 and 2 come before each other, and driver 3 after the a priori driver 4.
const CYCLE: Text<'static> = Text {
    head: b"volume 4096\n",
    turn: HAND_OFF,
    turns: 1,
    tail: b"file freeform dxe-apriori
guids 00000000-0000-0000-0000-000000000004
file driver 00000000-0000-0000-0000-000000000001
depex dxe before 00000000-0000-0000-0000-000000000002
file driver 00000000-0000-0000-0000-000000000002
depex dxe before 00000000-0000-0000-0000-000000000001
file driver 00000000-0000-0000-0000-000000000003
depex dxe after 00000000-0000-0000-0000-000000000004
file driver 00000000-0000-0000-0000-000000000004
depex dxe false
end
",
};

const CYCLE_TEXT: Text<'static> = Text {
    head: b"report 0\npei start 0 00000000-0000-0000-0000-00000000000f absent\ncall memory Success\ncall desc Success 0x80000040\ncall install Success\ncall hob Success 0x80000090\nend Success\nmigrate 0x80000000 0x40000000\ncore install Success\npei stop\nhandoff 0x40000000\ndxe volume 0\ndxe start 0 00000000-0000-0000-0000-000000000004 apriori\nend Success\ndxe stop\nwaiting 0 00000000-0000-0000-0000-000000000001 before\nwaiting 0 00000000-0000-0000-0000-000000000002 before\nwaiting 0 00000000-0000-0000-0000-000000000003 after\nppis 2\nppi 0 0ae8ce5d-e448-4437-a8d7-ebf5f194f731 0x0\nppi core f894643d-c449-42d1-8ea8-85bdd8c65bde 0x0\ncallbacks 0\ndispatches 0\npendings 0\nhobs 6\nhob 1 090000000000000000001040000000000000004000000000000010400000000008010040000000000001004000000000\nhob 7 1000008000000000580000400000000000000000000000005dcee80a48e43744a8d7ebf5f194f731\nhob 7 e000004000000000400000400000000000000000000000000000000000000000\nhob 5 0000f0ff000000000010000000000000\nhob 7 1000008000000000c80000400000000000000000000000003d6494f849c4d1428ea885bdd8c65bde\nhob 7 0000000000000000b0000040000000000000000000000000ffffffff00000000\nhandles 0\nresult Done\n",
    ..NOTHING
};

// The first driver requests one with SOR twice, and one without.
const SCHEDULE: Text<'static> = Text {
    head: b"volume 4096\n",
    turn: HAND_OFF,
    turns: 1,
    tail: b"file driver 00000000-0000-0000-0000-000000000001
depex dxe true
script dxe
block
schedule 00000000-0000-0000-0000-000000000002
schedule 00000000-0000-0000-0000-000000000002
schedule 00000000-0000-0000-0000-000000000003
ret Success
end
file driver 00000000-0000-0000-0000-000000000002
depex dxe sor true
file driver 00000000-0000-0000-0000-000000000003
depex dxe false
end
",
};

const SCHEDULE_TEXT: Text<'static> = Text {
    head: b"report 0\npei start 0 00000000-0000-0000-0000-00000000000f absent\ncall memory Success\ncall desc Success 0x80000040\ncall install Success\ncall hob Success 0x80000090\nend Success\nmigrate 0x80000000 0x40000000\ncore install Success\npei stop\nhandoff 0x40000000\ndxe volume 0\ndxe start 0 00000000-0000-0000-0000-000000000001 true\ncall schedule Success\ncall schedule NotFound\ncall schedule NotFound\nend Success\ndxe start 0 00000000-0000-0000-0000-000000000002 true\nend Success\ndxe stop\nwaiting 0 00000000-0000-0000-0000-000000000003 false\nppis 2\nppi 0 0ae8ce5d-e448-4437-a8d7-ebf5f194f731 0x0\nppi core f894643d-c449-42d1-8ea8-85bdd8c65bde 0x0\ncallbacks 0\ndispatches 0\npendings 0\nhobs 6\nhob 1 090000000000000000001040000000000000004000000000000010400000000008010040000000000001004000000000\nhob 7 1000008000000000580000400000000000000000000000005dcee80a48e43744a8d7ebf5f194f731\nhob 7 e000004000000000400000400000000000000000000000000000000000000000\nhob 5 0000f0ff000000000010000000000000\nhob 7 1000008000000000c80000400000000000000000000000003d6494f849c4d1428ea885bdd8c65bde\nhob 7 0000000000000000b0000040000000000000000000000000ffffffff00000000\nhandles 0\nresult Done\n",
    ..NOTHING
};

/// Which driver starts when: each boot, its text and its status.
pub(super) static ORDERS: [(Case<'static>, Text<'static>, Status); 3] = [
    // Drivers before and after another, with a companion of a companion.
    (
        Case {
            images: &[Image {
                volume: COMPANIONS,
                ..VOLUME
            }],
            ..SMALLEST
        },
        COMPANIONS_TEXT,
        Status::Done,
    ),
    // Two drivers that name each other never start; an a priori driver brings no companions.
    (
        Case {
            images: &[Image {
                volume: CYCLE,
                ..VOLUME
            }],
            ..SMALLEST
        },
        CYCLE_TEXT,
        Status::Done,
    ),
    // A driver with SOR starts when it is requested; one that is not of that kind cannot be.
    (
        Case {
            images: &[Image {
                volume: SCHEDULE,
                ..VOLUME
            }],
            ..SMALLEST
        },
        SCHEDULE_TEXT,
        Status::Done,
    ),
];
