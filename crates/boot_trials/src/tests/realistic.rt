// A whole boot: its volumes, what is printed of it, and the status.
use super::text::{NOTHING, Text};
use super::{Case, Image, SMALLEST, VOLUME};
use boot_core::Status;

const REALISTIC_PLAN: &[u8; 101] =
    b"temp 0x80000000 0x10000\nram 0x40000000 0x4000000\nvolume 0xff800000 boot.fv\nvolume 0xff000000 main.fv\n";

// The PEIM reports the main volume by a volume information PPI; the driver waits for all architectural protocols.
const BOOT: Text<'static> = Text {
    head: b"volume 8388608
file peim 00000000-0000-0000-0000-00000000000a
script pei
block
pool r6 0x30
store r6 0x0 78e58c8c3d8a1c4f9935896185c32dd3
store r6 0x10 000000ff00000000
store r6 0x18 00001000
addr r7 r6 0x0
desc r8 ppi 49edb1c1-bf21-4761-bb12-eb0031aabb39 r7
install r8
hob 5 000080ff000000000000800000000000
hob 5 000000ff000000000000100000000000
set r4 0x0
desc r9 ppi 0ae8ce5d-e448-4437-a8d7-ebf5f194f731 r4
install r9
set r0 0x40000000
set r1 0x2000000
memory r0 r1
ret Success
end
file driver 00000000-0000-0000-0000-000000000001
end
",
    ..NOTHING
};

// The PEIM waits for permanent memory; the driver installs the thirteen architectural protocols, and waits for the one that the driver of the nested volume installs.
const MAIN: Text<'static> = Text {
    head: b"volume 1048576
file peim 00000000-0000-0000-0000-00000000000c
depex pei f894643d-c449-42d1-8ea8-85bdd8c65bde
script pei
block
log second
ret Success
end
file driver 00000000-0000-0000-0000-000000000002
depex dxe 00000000-0000-0000-0000-000000000021
script dxe
block
set r0 0x0
install new r1 a46423e3-4617-49f1-b9ff-d1bfa9115839 r0
install on r1 26baccb1-6f42-11d4-bce7-0080c73c8881 r0
install on r1 26baccb2-6f42-11d4-bce7-0080c73c8881 r0
install on r1 26baccb3-6f42-11d4-bce7-0080c73c8881 r0
install on r1 665e3ff6-46cc-11d4-9a38-0090273fc14d r0
install on r1 665e3ff5-46cc-11d4-9a38-0090273fc14d r0
install on r1 b7dfb4e1-052f-449f-87be-9818fc91b733 r0
install on r1 1e5668e2-8481-11d4-bcf1-0080c73c8881 r0
install on r1 6441f818-6362-4e44-b570-7dba31dd2453 r0
install on r1 5053697e-2cbc-4819-90d9-0580deee5754 r0
install on r1 1da97072-bddc-4b30-99f1-72a0b56fff2a r0
install on r1 27cfac88-46cc-11d4-9a38-0090273fc14d r0
install on r1 27cfac87-46cc-11d4-9a38-0090273fc14d r0
ret Success
end
file volume-image 00000000-0000-0000-0000-000000000044
volume 4096
file driver 00000000-0000-0000-0000-000000000003
depex dxe true
script dxe
block
set r0 0x0
install new r1 00000000-0000-0000-0000-000000000021 r0
ret Success
end
end
end
",
    ..NOTHING
};

const REALISTIC_TEXT: Text<'static> = Text {
    head: b"report 0\npei start 0 00000000-0000-0000-0000-00000000000a absent\ncall pool Success 0x80000040\ncall store Success\ncall store Success\ncall store Success\ncall desc Success 0x80000078\ncall install Success\nreport 1\nreport 2\ncall hob Success 0x800000c8\ncall hob Success 0x800000e0\ncall desc Success 0x80000100\ncall install Success\ncall memory Success\nend Success\nmigrate 0x80000000 0x40000000\ncore install Success\npei start 1 00000000-0000-0000-0000-00000000000c true\nlog second\nend Success\npei stop\nhandoff 0x40000000\ndxe volume 0\ndxe volume 1\ndxe volume 2\ndxe start 2 00000000-0000-0000-0000-000000000003 true\ncall install Success 0x1\nend Success\ndxe start 1 00000000-0000-0000-0000-000000000002 true\ncall install Success 0x2\ncall install Success\ncall install Success\ncall install Success\ncall install Success\ncall install Success\ncall install Success\ncall install Success\ncall install Success\ncall install Success\ncall install Success\ncall install Success\ncall install Success\nend Success\ndxe start 0 00000000-0000-0000-0000-000000000001 absent\nend Success\ndxe stop\nppis 3\nppi 0 49edb1c1-bf21-4761-bb12-eb0031aabb39 0x40000040\nppi 0 0ae8ce5d-e448-4437-a8d7-ebf5f194f731 0x0\nppi core f894643d-c449-42d1-8ea8-85bdd8c65bde 0x0\ncallbacks 0\ndispatches 0\npendings 0\nhobs 10\nhob 1 0900000000000000000000420000000000000040000000000000004200000000b001004000000000a801004000000000\nhob 7 78e58c8c3d8a1c4f9935896185c32dd3000000ff00000000000010000000000000000000000000000000000000000000\nhob 7 100000800000000090000040000000004000004000000000c1b1ed4921bf6147bb12eb0031aabb39\nhob 7 3001004000000000780000400000000000000000000000000000000000000000\nhob 5 000080ff000000000000800000000000\nhob 5 000000ff000000000000100000000000\nhob 7 1000008000000000180100400000000000000000000000005dcee80a48e43744a8d7ebf5f194f731\nhob 7 8801004000000000000100400000000000000000000000000000000000000000\nhob 7 1000008000000000700100400000000000000000000000003d6494f849c4d1428ea885bdd8c65bde\nhob 7 000000000000000058010040000000000000000000000000ffffffff00000000\nhandles 14\nhandle 1 00000000-0000-0000-0000-000000000021 0x0\nhandle 2 a46423e3-4617-49f1-b9ff-d1bfa9115839 0x0\nhandle 2 26baccb1-6f42-11d4-bce7-0080c73c8881 0x0\nhandle 2 26baccb2-6f42-11d4-bce7-0080c73c8881 0x0\nhandle 2 26baccb3-6f42-11d4-bce7-0080c73c8881 0x0\nhandle 2 665e3ff6-46cc-11d4-9a38-0090273fc14d 0x0\nhandle 2 665e3ff5-46cc-11d4-9a38-0090273fc14d 0x0\nhandle 2 b7dfb4e1-052f-449f-87be-9818fc91b733 0x0\nhandle 2 1e5668e2-8481-11d4-bcf1-0080c73c8881 0x0\nhandle 2 6441f818-6362-4e44-b570-7dba31dd2453 0x0\nhandle 2 5053697e-2cbc-4819-90d9-0580deee5754 0x0\nhandle 2 1da97072-bddc-4b30-99f1-72a0b56fff2a 0x0\nhandle 2 27cfac88-46cc-11d4-9a38-0090273fc14d 0x0\nhandle 2 27cfac87-46cc-11d4-9a38-0090273fc14d 0x0\nresult Done\n",
    ..NOTHING
};

/// A reported volume, a nested one, thirteen architectural protocols, and a driver without an expression.
pub(super) const WHOLE_BOOT: Case<'static> = Case {
    plan: REALISTIC_PLAN,
    images: &[
        Image {
            name: b"boot.fv",
            volume: BOOT,
            len: 0x80_0000,
            ..VOLUME
        },
        Image {
            name: b"main.fv",
            volume: MAIN,
            len: 0x10_0000,
            ..VOLUME
        },
    ],
    ..SMALLEST
};

/// A whole boot, its text and its status.
pub(super) static REALISTIC: [(Case<'static>, Text<'static>, Status); 1] = [(
    WHOLE_BOOT,
    REALISTIC_TEXT,
    Status::Done,
)];
