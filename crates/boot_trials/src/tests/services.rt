// What drivers call: volumes, what is printed of their boots, and the status.
use super::text::{HAND_OFF, NOTHING, Text};
use super::{Case, Image, SMALLEST, VOLUME};
use boot_core::Status;

// Each handle service, also when it refuses, and a volume that is processed again.
const HANDLES: Text<'static> = Text {
    head: b"volume 4096\n",
    turn: HAND_OFF,
    turns: 1,
    tail: b"file driver 00000000-0000-0000-0000-000000000001
depex dxe true
script dxe
block
set r0 0x5
set r1 0x6
install new r2 00000000-0000-0000-0000-000000000021 r0
install on r2 00000000-0000-0000-0000-000000000021 r1
uninstall r2 00000000-0000-0000-0000-000000000022 r0
notify 00000000-0000-0000-0000-000000000021 block 1
reinstall r2 00000000-0000-0000-0000-000000000021 r0 r1
set r3 0x1000
process r3
set r3 0xfff00000
process r3
dispatch
ret Success
block
ret Success
end
end
",
};

const HANDLES_TEXT: Text<'static> = Text {
    head: b"report 0\npei start 0 00000000-0000-0000-0000-00000000000f absent\ncall memory Success\ncall desc Success 0x80000040\ncall install Success\ncall hob Success 0x80000090\nend Success\nmigrate 0x80000000 0x40000000\ncore install Success\npei stop\nhandoff 0x40000000\ndxe volume 0\ndxe start 0 00000000-0000-0000-0000-000000000001 true\ncall install Success 0x1\ncall install InvalidParameter\ncall uninstall NotFound\ncall notify Success\ncall reinstall Success\nnotify protocol 0 00000000-0000-0000-0000-000000000001 00000000-0000-0000-0000-000000000021\nend Success\ncall process NotFound\ncall process AlreadyStarted\ncall dispatch AlreadyStarted\nend Success\ndxe stop\nppis 2\nppi 0 0ae8ce5d-e448-4437-a8d7-ebf5f194f731 0x0\nppi core f894643d-c449-42d1-8ea8-85bdd8c65bde 0x0\ncallbacks 0\ndispatches 0\npendings 0\nhobs 6\nhob 1 090000000000000000001040000000000000004000000000000010400000000008010040000000000001004000000000\nhob 7 1000008000000000580000400000000000000000000000005dcee80a48e43744a8d7ebf5f194f731\nhob 7 e000004000000000400000400000000000000000000000000000000000000000\nhob 5 0000f0ff000000000010000000000000\nhob 7 1000008000000000c80000400000000000000000000000003d6494f849c4d1428ea885bdd8c65bde\nhob 7 0000000000000000b0000040000000000000000000000000ffffffff00000000\nhandles 1\nhandle 1 00000000-0000-0000-0000-000000000021 0x6\nresult Done\n",
    ..NOTHING
};

// A notification that reinstalls the protocol that it waits for.
const NOTIFIED_AGAIN: Text<'static> = Text {
    head: b"volume 4096\n",
    turn: HAND_OFF,
    turns: 1,
    tail: b"file driver 00000000-0000-0000-0000-000000000001
depex dxe true
script dxe
block
set r0 0x5
install new r1 00000000-0000-0000-0000-000000000021 r0
notify 00000000-0000-0000-0000-000000000021 block 1
reinstall r1 00000000-0000-0000-0000-000000000021 r0 r0
ret Success
block
reinstall r1 00000000-0000-0000-0000-000000000021 r0 r0
ret Success
end
end
",
};

const FRAMES_FUEL_74_PLAN: &[u8; 80] =
    b"temp 0x80000000 0x10000\nram 0x40000000 0x4000000\nvolume 0xfff00000 a.fv\nfuel 74\n";

const FRAMES_FUEL_74_TEXT: Text<'static> = Text {
    head: b"report 0\npei start 0 00000000-0000-0000-0000-00000000000f absent\ncall memory Success\ncall desc Success 0x80000040\ncall install Success\ncall hob Success 0x80000090\nend Success\nmigrate 0x80000000 0x40000000\ncore install Success\npei stop\nhandoff 0x40000000\ndxe volume 0\ndxe start 0 00000000-0000-0000-0000-000000000001 true\ncall install Success 0x1\ncall notify Success\n",
    turn: b"call reinstall Success\nnotify protocol 0 00000000-0000-0000-0000-000000000001 00000000-0000-0000-0000-000000000021\n",
    turns: 63,
    tail: b"ppis 2\nppi 0 0ae8ce5d-e448-4437-a8d7-ebf5f194f731 0x0\nppi core f894643d-c449-42d1-8ea8-85bdd8c65bde 0x0\ncallbacks 0\ndispatches 0\npendings 0\nhobs 6\nhob 1 090000000000000000001040000000000000004000000000000010400000000008010040000000000001004000000000\nhob 7 1000008000000000580000400000000000000000000000005dcee80a48e43744a8d7ebf5f194f731\nhob 7 e000004000000000400000400000000000000000000000000000000000000000\nhob 5 0000f0ff000000000010000000000000\nhob 7 1000008000000000c80000400000000000000000000000003d6494f849c4d1428ea885bdd8c65bde\nhob 7 0000000000000000b0000040000000000000000000000000ffffffff00000000\nhandles 1\nhandle 1 00000000-0000-0000-0000-000000000021 0x5\nresult Spent\n",
};

const FRAMES_FUEL_75_PLAN: &[u8; 80] =
    b"temp 0x80000000 0x10000\nram 0x40000000 0x4000000\nvolume 0xfff00000 a.fv\nfuel 75\n";

const FRAMES_FUEL_75_TEXT: Text<'static> = Text {
    head: b"report 0\npei start 0 00000000-0000-0000-0000-00000000000f absent\ncall memory Success\ncall desc Success 0x80000040\ncall install Success\ncall hob Success 0x80000090\nend Success\nmigrate 0x80000000 0x40000000\ncore install Success\npei stop\nhandoff 0x40000000\ndxe volume 0\ndxe start 0 00000000-0000-0000-0000-000000000001 true\ncall install Success 0x1\ncall notify Success\n",
    turn: b"call reinstall Success\nnotify protocol 0 00000000-0000-0000-0000-000000000001 00000000-0000-0000-0000-000000000021\n",
    turns: 63,
    tail: b"call reinstall Success\nppis 2\nppi 0 0ae8ce5d-e448-4437-a8d7-ebf5f194f731 0x0\nppi core f894643d-c449-42d1-8ea8-85bdd8c65bde 0x0\ncallbacks 0\ndispatches 0\npendings 0\nhobs 6\nhob 1 090000000000000000001040000000000000004000000000000010400000000008010040000000000001004000000000\nhob 7 1000008000000000580000400000000000000000000000005dcee80a48e43744a8d7ebf5f194f731\nhob 7 e000004000000000400000400000000000000000000000000000000000000000\nhob 5 0000f0ff000000000010000000000000\nhob 7 1000008000000000c80000400000000000000000000000003d6494f849c4d1428ea885bdd8c65bde\nhob 7 0000000000000000b0000040000000000000000000000000ffffffff00000000\nhandles 1\nhandle 1 00000000-0000-0000-0000-000000000021 0x5\nresult Deep\n",
};

/// What drivers call: each boot, its text and its status.
pub(super) static SERVICES: [(Case<'static>, Text<'static>, Status); 3] = [
    // The handle services and a protocol notification inside its call.
    (
        Case {
            images: &[Image {
                volume: HANDLES,
                ..VOLUME
            }],
            ..SMALLEST
        },
        HANDLES_TEXT,
        Status::Done,
    ),
    // A notification that reinstalls its own protocol, until the fuel is spent.
    (
        Case {
            plan: FRAMES_FUEL_74_PLAN,
            images: &[Image {
                volume: NOTIFIED_AGAIN,
                ..VOLUME
            }],
            ..SMALLEST
        },
        FRAMES_FUEL_74_TEXT,
        Status::Spent,
    ),
    // The same boot with one more action, until the most frames are running.
    (
        Case {
            plan: FRAMES_FUEL_75_PLAN,
            images: &[Image {
                volume: NOTIFIED_AGAIN,
                ..VOLUME
            }],
            ..SMALLEST
        },
        FRAMES_FUEL_75_TEXT,
        Status::Deep,
    ),
];
