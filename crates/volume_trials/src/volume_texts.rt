// Texts of volumes: the bytes of those that the examples have, and each mistake with its line and its cause.
use source_words::depex::ExpressionFault;
use source_words::script::{LineFault, ScriptCause};
use std::alloc::Global;
use std::test::*;
use volume_text::{Cause, Fault, TextFault, volume_of};

/// `examples/every-service/late.volume`.
const EVERY_SERVICE_LATE_TEXT: &str = "# A volume that a driver processes.\n\
volume 1024\n\
\n\
file driver 00000001-0000-4000-8000-000000000014\n\
depex dxe true\n\
script dxe\n\
    block\n\
    log in a processed volume\n\
    ret Success\n\
end\n\
\n\
end\n\
";

/// `examples/every-service/late.fv`, without the bytes 0xff at its end.
const EVERY_SERVICE_LATE_FRONT: [u8; 143] = [
    0, 0, 0, 0, 0, 0, 0, 0, 0, 0, 0, 0, 0, 0, 0, 0, 120, 229, 140, 140, 61, 138, 28, 79, 153, 53,
    137, 97, 133, 195, 45, 211, 0, 4, 0, 0, 0, 0, 0, 0, 95, 70, 86, 72, 0, 8, 0, 0, 72, 0, 209,
    229, 0, 0, 0, 2, 1, 0, 0, 0, 0, 4, 0, 0, 0, 0, 0, 0, 0, 0, 0, 0, 1, 0, 0, 0, 0, 0, 0, 64, 128,
    0, 0, 0, 0, 0, 0, 20, 221, 170, 7, 0, 71, 0, 0, 248, 6, 0, 0, 19, 6, 8, 0, 0, 39, 0, 0, 25, 80,
    73, 65, 83, 1, 2, 1, 0, 2, 0, 17, 21, 105, 110, 32, 97, 32, 112, 114, 111, 99, 101, 115, 115,
    101, 100, 32, 118, 111, 108, 117, 109, 101, 19, 0,
];

/// `examples/script-booted/boot.volume`.
const SCRIPT_BOOTED_BOOT_TEXT: &str =
    "# One PEIM without an expression, with the script of ../script-as-text/script.txt.\n\
volume 4096\n\
file peim 00000001-0000-4000-8000-000000000001\n\
script pei\n\
    block\n\
    set r0 7\n\
    desc r1 ppi 00000002-0000-4000-8000-000000000001 r0\n\
    install r1\n\
    skip_if 0 1\n\
    log it was refused\n\
    ret Success\n\
end\n\
end\n\
";

/// `examples/script-booted/boot.fv`, without the bytes 0xff at its end.
const SCRIPT_BOOTED_BOOT_FRONT: [u8; 165] = [
    0, 0, 0, 0, 0, 0, 0, 0, 0, 0, 0, 0, 0, 0, 0, 0, 120, 229, 140, 140, 61, 138, 28, 79, 153, 53,
    137, 97, 133, 195, 45, 211, 0, 16, 0, 0, 0, 0, 0, 0, 95, 70, 86, 72, 0, 8, 0, 0, 72, 0, 209,
    205, 0, 0, 0, 2, 1, 0, 0, 0, 0, 16, 0, 0, 0, 0, 0, 0, 0, 0, 0, 0, 1, 0, 0, 0, 0, 0, 0, 64, 128,
    0, 0, 0, 0, 0, 0, 1, 219, 170, 6, 0, 93, 0, 0, 248, 69, 0, 0, 25, 80, 73, 65, 83, 1, 1, 1, 0,
    6, 0, 1, 0, 7, 0, 0, 0, 0, 0, 0, 0, 8, 1, 0, 0, 2, 0, 0, 0, 0, 0, 0, 64, 128, 0, 0, 0, 0, 0, 0,
    1, 0, 9, 1, 1, 18, 0, 1, 17, 14, 105, 116, 32, 119, 97, 115, 32, 114, 101, 102, 117, 115, 101,
    100, 19, 0,
];

/// `examples/memory-move/boot.volume`.
const MEMORY_MOVE_BOOT_TEXT: &str =
    "# One PEIM that installs a PPI with a notification waiting for it, and says where permanent memory is.\n\
# The notification is queued before the memory moves, and runs after it.\n\
volume 4096\n\
\n\
file peim 00000000-0000-0000-0000-00000000000a\n\
script pei\n\
    block\n\
    set r0 7\n\
    desc r1 dispatch 00000000-0000-0000-0000-000000000001 block 1\n\
    notify r1\n\
    desc r2 ppi 00000000-0000-0000-0000-000000000001 r0\n\
    install r2\n\
    set r4 0x40000000\n\
    set r5 0x100000\n\
    memory r4 r5\n\
    ret Success\n\
    block\n\
    log n\n\
    ret Success\n\
end\n\
\n\
end\n\
";

/// `examples/memory-move/boot.fv`, without the bytes 0xff at its end.
const MEMORY_MOVE_BOOT_FRONT: [u8; 200] = [
    0, 0, 0, 0, 0, 0, 0, 0, 0, 0, 0, 0, 0, 0, 0, 0, 120, 229, 140, 140, 61, 138, 28, 79, 153, 53,
    137, 97, 133, 195, 45, 211, 0, 16, 0, 0, 0, 0, 0, 0, 95, 70, 86, 72, 0, 8, 0, 0, 72, 0, 209,
    205, 0, 0, 0, 2, 1, 0, 0, 0, 0, 16, 0, 0, 0, 0, 0, 0, 0, 0, 0, 0, 0, 0, 0, 0, 0, 0, 0, 0, 0, 0,
    0, 0, 0, 0, 0, 10, 112, 170, 6, 0, 128, 0, 0, 248, 104, 0, 0, 25, 80, 73, 65, 83, 1, 1, 2, 0,
    9, 0, 1, 0, 7, 0, 0, 0, 0, 0, 0, 0, 8, 1, 2, 0, 0, 0, 0, 0, 0, 0, 0, 0, 0, 0, 0, 0, 0, 0, 0, 1,
    1, 11, 1, 1, 8, 2, 0, 0, 0, 0, 0, 0, 0, 0, 0, 0, 0, 0, 0, 0, 0, 0, 0, 1, 0, 9, 1, 2, 1, 4, 0,
    0, 0, 64, 0, 0, 0, 0, 1, 5, 0, 0, 16, 0, 0, 0, 0, 0, 14, 4, 5, 19, 0, 2, 0, 17, 1, 110, 19, 0,
];

/// A volume of FFS3 with a name, as other spellings of words have it.
const NAMED_TEXT: &str = "# A volume with a name, of FFS3.\r\n\
volume 512 ffs3\r\n\
  name B5A1C0DE-93f0-4a5d-8d11-6e2f40715c33\r\n\
\tfile peim {00000001-0000-4000-8000-000000000001}\r\n\
  depex pei A2A2A2A2-0000-4000-8000-000000000002 And not true END\r\n\
end";

/// Its bytes, without the bytes 0xff at their end, by the tables of `docs/FORMATS.md`.
const NAMED_FRONT: [u8; 169] = [
    0, 0, 0, 0, 0, 0, 0, 0, 0, 0, 0, 0, 0, 0, 0, 0, 122, 192, 115, 84, 203, 61, 202, 77, 189, 111,
    30, 150, 137, 231, 52, 154, 0, 2, 0, 0, 0, 0, 0, 0, 95, 70, 86, 72, 0, 8, 0, 0, 72, 0, 136, 58,
    96, 0, 0, 2, 1, 0, 0, 0, 0, 2, 0, 0, 0, 0, 0, 0, 0, 0, 0, 0, 255, 255, 255, 255, 255, 255, 255,
    255, 255, 255, 255, 255, 255, 255, 255, 255, 255, 255, 255, 255, 255, 255, 255, 255, 222, 192,
    161, 181, 240, 147, 93, 74, 141, 17, 110, 47, 64, 113, 92, 51, 20, 0, 0, 0, 255, 255, 255, 255,
    1, 0, 0, 0, 0, 0, 0, 64, 128, 0, 0, 0, 0, 0, 0, 1, 7, 170, 6, 0, 49, 0, 0, 248, 25, 0, 0, 27,
    2, 162, 162, 162, 162, 0, 0, 0, 64, 128, 0, 0, 0, 0, 0, 0, 2, 6, 5, 3, 8,
];

/// A volume with a longer header, and a name at a place of its own with room after it.
const PLACED_TEXT: &str = "volume 256 ffs2 header 0x50\n\
name B5A1C0DE-93f0-4a5d-8d11-6e2f40715c33 at 88 size 22\n\
file raw 00000001-0000-4000-8000-000000000001\n\
body 010203\n\
end\n";

/// Its bytes, without the bytes 0xff at their end, by the tables of `docs/FORMATS.md`: the extended header ends at 110, and the file begins at 112.
const PLACED_FRONT: [u8; 139] = [
    0, 0, 0, 0, 0, 0, 0, 0, 0, 0, 0, 0, 0, 0, 0, 0, 120, 229, 140, 140, 61, 138, 28, 79, 153, 53,
    137, 97, 133, 195, 45, 211, 0, 1, 0, 0, 0, 0, 0, 0, 95, 70, 86, 72, 0, 8, 0, 0, 80, 0, 113,
    235, 88, 0, 0, 2, 1, 0, 0, 0, 0, 1, 0, 0, 0, 0, 0, 0, 0, 0, 0, 0, 0, 0, 0, 0, 0, 0, 0, 0, 255,
    255, 255, 255, 255, 255, 255, 255, 222, 192, 161, 181, 240, 147, 93, 74, 141, 17, 110, 47, 64,
    113, 92, 51, 22, 0, 0, 0, 255, 255, 255, 255, 1, 0, 0, 0, 0, 0, 0, 64, 128, 0, 0, 0, 0, 0, 0,
    1, 34, 170, 1, 0, 27, 0, 0, 248, 1, 2, 3,
];

/// A volume with a pad file.
const PADDED_TEXT: &str = "volume 256\n\
pad 8\n\
file raw 00000001-0000-4000-8000-000000000001\n\
raw 0102\n\
end\n";

/// Its bytes, without the bytes 0xff at their end, by the tables of `docs/FORMATS.md`: the pad file's body is erased.
const PADDED_FRONT: [u8; 134] = [
    0, 0, 0, 0, 0, 0, 0, 0, 0, 0, 0, 0, 0, 0, 0, 0, 120, 229, 140, 140, 61, 138, 28, 79, 153, 53,
    137, 97, 133, 195, 45, 211, 0, 1, 0, 0, 0, 0, 0, 0, 95, 70, 86, 72, 0, 8, 0, 0, 72, 0, 209,
    235, 0, 0, 0, 2, 1, 0, 0, 0, 0, 1, 0, 0, 0, 0, 0, 0, 0, 0, 0, 0, 255, 255, 255, 255, 255, 255,
    255, 255, 255, 255, 255, 255, 255, 255, 255, 255, 0, 170, 240, 0, 32, 0, 0, 248, 255, 255, 255,
    255, 255, 255, 255, 255, 1, 0, 0, 0, 0, 0, 0, 64, 128, 0, 0, 0, 0, 0, 0, 1, 31, 170, 1, 0, 30,
    0, 0, 248, 6, 0, 0, 25, 1, 2,
];

/// A volume with attributes, and a file with attributes whose body is no sections.
const MARKED_TEXT: &str = "volume 256 ffs2 attributes 0x4feff\n\
file raw 00000001-0000-4000-8000-000000000001 fixed align 128\n\
body 01020304 05\n\
end\n";

/// Its bytes, without the bytes 0xff at their end, by the tables of `docs/FORMATS.md`: 0x04 is `fixed`, and 0x10 an alignment of 128.
const MARKED_FRONT: [u8; 101] = [
    0, 0, 0, 0, 0, 0, 0, 0, 0, 0, 0, 0, 0, 0, 0, 0, 120, 229, 140, 140, 61, 138, 28, 79, 153, 53,
    137, 97, 133, 195, 45, 211, 0, 1, 0, 0, 0, 0, 0, 0, 95, 70, 86, 72, 255, 254, 4, 0, 72, 0, 206,
    244, 0, 0, 0, 2, 1, 0, 0, 0, 0, 1, 0, 0, 0, 0, 0, 0, 0, 0, 0, 0, 1, 0, 0, 0, 0, 0, 0, 64, 128,
    0, 0, 0, 0, 0, 0, 1, 12, 170, 1, 20, 29, 0, 0, 248, 1, 2, 3, 4, 5,
];

/// `examples/audit/main.volume`.
const AUDIT_MAIN_TEXT: &str =
    "# A main volume: drivers with each form of expression that DXE alone has, and a volume in a file.\n\
volume 8192\n\
\n\
file driver 11a6edf6-a9be-426d-a6cc-b22fe51d9224\n\
depex dxe sor true\n\
\n\
file driver 93022f8c-1f09-47ef-bbb2-5814ff609df5\n\
depex dxe after 11a6edf6-a9be-426d-a6cc-b22fe51d9224\n\
\n\
file volume-image 9e21fd93-9c72-4c15-8c4b-e77f1db2d792\n\
volume 1024\n\
    file driver a210f973-229d-4f4d-aa37-9895e6c9eaba\n\
    script dxe\n\
        block\n\
        log inside\n\
        ret Success\n\
    end\n\
end\n\
\n\
file driver f80697e9-7fd6-4665-8646-88e33ef71dfc\n\
depex dxe before 93022f8c-1f09-47ef-bbb2-5814ff609df5\n\
\n\
end\n\
";

/// `examples/audit/main.fv`, without the bytes 0xff at its end.
const AUDIT_MAIN_FRONT: [u8; 1254] = [
    0, 0, 0, 0, 0, 0, 0, 0, 0, 0, 0, 0, 0, 0, 0, 0, 120, 229, 140, 140, 61, 138, 28, 79, 153, 53,
    137, 97, 133, 195, 45, 211, 0, 32, 0, 0, 0, 0, 0, 0, 95, 70, 86, 72, 0, 8, 0, 0, 72, 0, 209,
    173, 0, 0, 0, 2, 1, 0, 0, 0, 0, 32, 0, 0, 0, 0, 0, 0, 0, 0, 0, 0, 246, 237, 166, 17, 190, 169,
    109, 66, 166, 204, 178, 47, 229, 29, 146, 36, 31, 170, 7, 0, 31, 0, 0, 248, 7, 0, 0, 19, 9, 6,
    8, 255, 140, 47, 2, 147, 9, 31, 239, 71, 187, 178, 88, 20, 255, 96, 157, 245, 83, 170, 7, 0,
    46, 0, 0, 248, 22, 0, 0, 19, 1, 246, 237, 166, 17, 190, 169, 109, 66, 166, 204, 178, 47, 229,
    29, 146, 36, 8, 255, 255, 147, 253, 33, 158, 114, 156, 21, 76, 140, 75, 231, 127, 29, 178, 215,
    146, 162, 170, 11, 0, 28, 4, 0, 248, 4, 4, 0, 23, 0, 0, 0, 0, 0, 0, 0, 0, 0, 0, 0, 0, 0, 0, 0,
    0, 120, 229, 140, 140, 61, 138, 28, 79, 153, 53, 137, 97, 133, 195, 45, 211, 0, 4, 0, 0, 0, 0,
    0, 0, 95, 70, 86, 72, 0, 8, 0, 0, 72, 0, 209, 229, 0, 0, 0, 2, 1, 0, 0, 0, 0, 4, 0, 0, 0, 0, 0,
    0, 0, 0, 0, 0, 115, 249, 16, 162, 157, 34, 77, 79, 170, 55, 152, 149, 230, 201, 234, 186, 239,
    170, 7, 0, 48, 0, 0, 248, 24, 0, 0, 25, 80, 73, 65, 83, 1, 2, 1, 0, 2, 0, 17, 6, 105, 110, 115,
    105, 100, 101, 19, 0, 255, 255, 255, 255, 255, 255, 255, 255, 255, 255, 255, 255, 255, 255,
    255, 255, 255, 255, 255, 255, 255, 255, 255, 255, 255, 255, 255, 255, 255, 255, 255, 255, 255,
    255, 255, 255, 255, 255, 255, 255, 255, 255, 255, 255, 255, 255, 255, 255, 255, 255, 255, 255,
    255, 255, 255, 255, 255, 255, 255, 255, 255, 255, 255, 255, 255, 255, 255, 255, 255, 255, 255,
    255, 255, 255, 255, 255, 255, 255, 255, 255, 255, 255, 255, 255, 255, 255, 255, 255, 255, 255,
    255, 255, 255, 255, 255, 255, 255, 255, 255, 255, 255, 255, 255, 255, 255, 255, 255, 255, 255,
    255, 255, 255, 255, 255, 255, 255, 255, 255, 255, 255, 255, 255, 255, 255, 255, 255, 255, 255,
    255, 255, 255, 255, 255, 255, 255, 255, 255, 255, 255, 255, 255, 255, 255, 255, 255, 255, 255,
    255, 255, 255, 255, 255, 255, 255, 255, 255, 255, 255, 255, 255, 255, 255, 255, 255, 255, 255,
    255, 255, 255, 255, 255, 255, 255, 255, 255, 255, 255, 255, 255, 255, 255, 255, 255, 255, 255,
    255, 255, 255, 255, 255, 255, 255, 255, 255, 255, 255, 255, 255, 255, 255, 255, 255, 255, 255,
    255, 255, 255, 255, 255, 255, 255, 255, 255, 255, 255, 255, 255, 255, 255, 255, 255, 255, 255,
    255, 255, 255, 255, 255, 255, 255, 255, 255, 255, 255, 255, 255, 255, 255, 255, 255, 255, 255,
    255, 255, 255, 255, 255, 255, 255, 255, 255, 255, 255, 255, 255, 255, 255, 255, 255, 255, 255,
    255, 255, 255, 255, 255, 255, 255, 255, 255, 255, 255, 255, 255, 255, 255, 255, 255, 255, 255,
    255, 255, 255, 255, 255, 255, 255, 255, 255, 255, 255, 255, 255, 255, 255, 255, 255, 255, 255,
    255, 255, 255, 255, 255, 255, 255, 255, 255, 255, 255, 255, 255, 255, 255, 255, 255, 255, 255,
    255, 255, 255, 255, 255, 255, 255, 255, 255, 255, 255, 255, 255, 255, 255, 255, 255, 255, 255,
    255, 255, 255, 255, 255, 255, 255, 255, 255, 255, 255, 255, 255, 255, 255, 255, 255, 255, 255,
    255, 255, 255, 255, 255, 255, 255, 255, 255, 255, 255, 255, 255, 255, 255, 255, 255, 255, 255,
    255, 255, 255, 255, 255, 255, 255, 255, 255, 255, 255, 255, 255, 255, 255, 255, 255, 255, 255,
    255, 255, 255, 255, 255, 255, 255, 255, 255, 255, 255, 255, 255, 255, 255, 255, 255, 255, 255,
    255, 255, 255, 255, 255, 255, 255, 255, 255, 255, 255, 255, 255, 255, 255, 255, 255, 255, 255,
    255, 255, 255, 255, 255, 255, 255, 255, 255, 255, 255, 255, 255, 255, 255, 255, 255, 255, 255,
    255, 255, 255, 255, 255, 255, 255, 255, 255, 255, 255, 255, 255, 255, 255, 255, 255, 255, 255,
    255, 255, 255, 255, 255, 255, 255, 255, 255, 255, 255, 255, 255, 255, 255, 255, 255, 255, 255,
    255, 255, 255, 255, 255, 255, 255, 255, 255, 255, 255, 255, 255, 255, 255, 255, 255, 255, 255,
    255, 255, 255, 255, 255, 255, 255, 255, 255, 255, 255, 255, 255, 255, 255, 255, 255, 255, 255,
    255, 255, 255, 255, 255, 255, 255, 255, 255, 255, 255, 255, 255, 255, 255, 255, 255, 255, 255,
    255, 255, 255, 255, 255, 255, 255, 255, 255, 255, 255, 255, 255, 255, 255, 255, 255, 255, 255,
    255, 255, 255, 255, 255, 255, 255, 255, 255, 255, 255, 255, 255, 255, 255, 255, 255, 255, 255,
    255, 255, 255, 255, 255, 255, 255, 255, 255, 255, 255, 255, 255, 255, 255, 255, 255, 255, 255,
    255, 255, 255, 255, 255, 255, 255, 255, 255, 255, 255, 255, 255, 255, 255, 255, 255, 255, 255,
    255, 255, 255, 255, 255, 255, 255, 255, 255, 255, 255, 255, 255, 255, 255, 255, 255, 255, 255,
    255, 255, 255, 255, 255, 255, 255, 255, 255, 255, 255, 255, 255, 255, 255, 255, 255, 255, 255,
    255, 255, 255, 255, 255, 255, 255, 255, 255, 255, 255, 255, 255, 255, 255, 255, 255, 255, 255,
    255, 255, 255, 255, 255, 255, 255, 255, 255, 255, 255, 255, 255, 255, 255, 255, 255, 255, 255,
    255, 255, 255, 255, 255, 255, 255, 255, 255, 255, 255, 255, 255, 255, 255, 255, 255, 255, 255,
    255, 255, 255, 255, 255, 255, 255, 255, 255, 255, 255, 255, 255, 255, 255, 255, 255, 255, 255,
    255, 255, 255, 255, 255, 255, 255, 255, 255, 255, 255, 255, 255, 255, 255, 255, 255, 255, 255,
    255, 255, 255, 255, 255, 255, 255, 255, 255, 255, 255, 255, 255, 255, 255, 255, 255, 255, 255,
    255, 255, 255, 255, 255, 255, 255, 255, 255, 255, 255, 255, 255, 255, 255, 255, 255, 255, 255,
    255, 255, 255, 255, 255, 255, 255, 255, 255, 255, 255, 255, 255, 255, 255, 255, 255, 255, 255,
    255, 255, 255, 255, 255, 255, 255, 255, 255, 255, 255, 255, 255, 255, 255, 255, 255, 255, 255,
    255, 255, 255, 255, 255, 255, 255, 255, 255, 255, 255, 255, 255, 255, 255, 255, 255, 255, 255,
    255, 255, 255, 255, 255, 255, 255, 255, 255, 255, 255, 255, 255, 255, 255, 255, 255, 255, 255,
    255, 255, 255, 255, 255, 255, 255, 255, 255, 255, 255, 255, 255, 255, 255, 255, 255, 255, 255,
    255, 255, 255, 255, 255, 255, 255, 255, 255, 255, 255, 255, 255, 255, 255, 255, 255, 255, 255,
    255, 233, 151, 6, 248, 214, 127, 101, 70, 134, 70, 136, 227, 62, 247, 29, 252, 200, 170, 7, 0,
    46, 0, 0, 248, 22, 0, 0, 19, 0, 140, 47, 2, 147, 9, 31, 239, 71, 187, 178, 88, 20, 255, 96,
    157, 245, 8,
];

/// Texts with a mistake, its line and its cause.
static MISTAKES: [(&str, u64, Cause); 91] = [
    ("", 1, Cause::NoVolume), // no line
    ("\n# nothing\n", 3, Cause::NoVolume), // comments alone
    (
        "file peim 00000001-0000-4000-8000-000000000001\n",
        1,
        Cause::NoVolume,
    ), // a file first
    ("volume\n", 1, Cause::Missing), // no length
    ("volume 4K\n", 1, Cause::Number), // no number
    ("volume 71\n", 1, Cause::Range), // shorter than its header
    ("volume 0x4000001\n", 1, Cause::Range), // longer than 64 MiB
    ("volume 4096 ffs4\n", 1, Cause::Word), // no file system
    ("volume 4096 ffs3 x\n", 1, Cause::Extra), // a word too many
    ("volume 4096\n", 2, Cause::NoEnd), // no `end`
    ("volume 4096\nend\nend\n", 3, Cause::BehindEnd), // text behind the end
    ("volume 4096\nraw 00\nend\n", 2, Cause::NoFile), // a section before the first file
    ("volume 4096\nvolume 96\n", 2, Cause::NoFile), // a volume before the first file
    (
        "volume 4096\nfile pei 00000001-0000-4000-8000-000000000001\n",
        2,
        Cause::FileType,
    ), // no type of a file
    ("volume 4096\nfile peim here\n", 2, Cause::Guid), // no GUID
    ("volume 4096\nfile peim\n", 2, Cause::Missing), // no name
    (
        "volume 4096\nfile peim 00000001-0000-4000-8000-000000000001 x\n",
        2,
        Cause::Extra,
    ), // a word behind the name
    (
        "volume 4096\nfile peim 00000001-0000-4000-8000-000000000001\nsection 1 00\n",
        3,
        Cause::SectionType,
    ), // no type of a section
    (
        "volume 4096\nfile peim 00000001-0000-4000-8000-000000000001\nui\n",
        3,
        Cause::Missing,
    ), // no name for a person
    (
        "volume 4096\nfile peim 00000001-0000-4000-8000-000000000001\nui Boot Shell\n",
        3,
        Cause::Extra,
    ), // one of two words
    (
        "volume 4096\nfile peim 00000001-0000-4000-8000-000000000001\nui (Shell)\n",
        3,
        Cause::Word,
    ), // one with brackets
    (
        "volume 4096\nfile peim 00000001-0000-4000-8000-000000000001\nui Sh\u{e9}ll\n",
        3,
        Cause::Word,
    ), // one beyond ASCII
    (
        "volume 4096\nfile peim 00000001-0000-4000-8000-000000000001\nraw 0\n",
        3,
        Cause::Bytes,
    ), // half a byte
    (
        "volume 4096\nfile peim 00000001-0000-4000-8000-000000000001\nguids here\n",
        3,
        Cause::Guid,
    ), // no GUID in a list
    (
        "volume 4096\nfile peim 00000001-0000-4000-8000-000000000001\nlogg x\n",
        3,
        Cause::UnknownLine,
    ), // no line
    (
        "volume 4096\nfile peim 00000001-0000-4000-8000-000000000001\nblock\n",
        3,
        Cause::NoScript,
    ), // a block outside of a script
    (
        "volume 4096\nfile peim 00000001-0000-4000-8000-000000000001\ndepex dxe true\n",
        3,
        Cause::NoPart,
    ), // an expression for DXE in a PEIM
    (
        "volume 4096\nfile peim 00000001-0000-4000-8000-000000000001\nscript dxe\n",
        3,
        Cause::NoPart,
    ), // a script for DXE in a PEIM
    (
        "volume 4096\nfile freeform 00000001-0000-4000-8000-000000000001\ndepex pei true\n",
        3,
        Cause::NoPart,
    ), // an expression in a file that is no module
    (
        "volume 4096\nfile volume-image 00000001-0000-4000-8000-000000000001\nscript dxe\n",
        3,
        Cause::NoPart,
    ), // a script in one
    (
        "volume 4096\nfile pei-core 00000001-0000-4000-8000-000000000001\nscript pei\n",
        3,
        Cause::NoPart,
    ), // a script in a core
    (
        "volume 4096\nfile combined 00000001-0000-4000-8000-000000000001\ndepex pei true\ndepex dxe true\ndepex pei true\n",
        5,
        Cause::TwoDepex,
    ), // a second expression for a phase
    (
        "volume 4096\nfile peim 00000001-0000-4000-8000-000000000001\nsection 1b 0608\ndepex pei true\n",
        4,
        Cause::TwoDepex,
    ), // a second one, behind one by its bytes
    (
        "volume 4096\nfile peim 00000001-0000-4000-8000-000000000001\ndepex smm true\n",
        3,
        Cause::Word,
    ), // no phase
    (
        "volume 4096\nfile peim 00000001-0000-4000-8000-000000000001\ndepex pei true true\n",
        3,
        Cause::Expression(ExpressionFault::Extra),
    ), // a word behind an operand
    (
        "volume 4096\nfile peim 00000001-0000-4000-8000-000000000001\ndepex pei (true\n",
        3,
        Cause::Expression(ExpressionFault::Bracket),
    ), // an open bracket
    (
        "volume 4096\nfile peim 00000001-0000-4000-8000-000000000001\ndepex pei true AND\n",
        3,
        Cause::Expression(ExpressionFault::NoOperand),
    ), // no second operand
    (
        "volume 4096\nfile peim 00000001-0000-4000-8000-000000000001\ndepex pei gEfiPei\n",
        3,
        Cause::Expression(ExpressionFault::NoGuid),
    ), // no GUID in an expression
    (
        "volume 4096\nfile peim 00000001-0000-4000-8000-000000000001\ndepex pei sor true\n",
        3,
        Cause::Expression(ExpressionFault::OtherPhase),
    ), // SOR in PEI
    (
        "volume 4096\nfile peim 00000001-0000-4000-8000-000000000001\nscript pei\nblock\nlogg x\n",
        5,
        Cause::Action(LineFault::UnknownAction),
    ), // no action
    (
        "volume 4096\nfile peim 00000001-0000-4000-8000-000000000001\nscript pei\nblock\nschedule 00000001-0000-4000-8000-000000000001\n",
        5,
        Cause::Action(LineFault::OtherPhase),
    ), // an action of DXE
    (
        "volume 4096\nfile peim 00000001-0000-4000-8000-000000000001\nscript pei\nblock\nset r0\n",
        5,
        Cause::Action(LineFault::Missing),
    ), // an operand is missing
    (
        "volume 4096\nfile peim 00000001-0000-4000-8000-000000000001\nscript pei\nblock\nset r0 1 2\n",
        5,
        Cause::Action(LineFault::Extra),
    ), // an operand too many
    (
        "volume 4096\nfile peim 00000001-0000-4000-8000-000000000001\nscript pei\nblock\nset r16 1\n",
        5,
        Cause::Action(LineFault::Register),
    ), // no register
    (
        "volume 4096\nfile peim 00000001-0000-4000-8000-000000000001\nscript pei\nblock\nret Good\n",
        5,
        Cause::Action(LineFault::Status),
    ), // no status
    (
        "volume 4096\nfile peim 00000001-0000-4000-8000-000000000001\nscript pei\nblock\nlog xxxxxxxxxxxxxxxxxxxxxxxxxxxxxxxxxxxxxxxxxxxxxxxxxxxxxxxxxxxxxxxxx\n",
        5,
        Cause::Action(LineFault::Log),
    ), // a log of 65 bytes
    (
        "volume 4096\nfile peim 00000001-0000-4000-8000-000000000001\nscript pei\nblock\nhob 2 00\n",
        5,
        Cause::Action(LineFault::Hob),
    ), // no HOB of a script
    (
        "volume 4096\nfile peim 00000001-0000-4000-8000-000000000001\nscript pei\nret Success\n",
        4,
        Cause::Script(ScriptCause::NoBlock),
    ), // no `block`
    (
        "volume 4096\nfile peim 00000001-0000-4000-8000-000000000001\nscript pei\nblock\nlog x\nend\n",
        6,
        Cause::Script(ScriptCause::NoRet),
    ), // no `ret`
    (
        "volume 4096\nfile peim 00000001-0000-4000-8000-000000000001\nscript pei\nblock\nskip_if 0 1\nret Success\nend\nend\n",
        5,
        Cause::Script(ScriptCause::Jump),
    ), // it skips too far
    (
        "volume 4096\nfile peim 00000001-0000-4000-8000-000000000001\nscript pei\nblock\ndesc r1 callback 00000001-0000-4000-8000-000000000001 block 1\nret Success\nend\nend\n",
        5,
        Cause::Script(ScriptCause::NoSuchBlock),
    ), // no such block
    (
        "volume 4096\nfile peim 00000001-0000-4000-8000-000000000001\nscript pei\nblock\nret Success\nfile peim 00000001-0000-4000-8000-000000000001\n",
        6,
        Cause::InScript,
    ), // a script without its `end`
    (
        "volume 4096\nfile peim 00000001-0000-4000-8000-000000000001\nscript pei\nblock\nret Success\nend\nscript pei\n",
        7,
        Cause::TwoScripts,
    ), // a second script of the phase
    (
        "volume 96\nfile raw 00000001-0000-4000-8000-000000000001\nraw 00\nend\n",
        4,
        Cause::NoRoom { need: 101 },
    ), // too small a volume
    (
        "volume 4096\npad 4000\npad 96\npad 1\npad 1\n",
        4,
        Cause::NoRoom { need: 4097 },
    ), // more bytes than the volume has, without the files' headers
    (
        "volume 4096\npad 4000\npad 96\nend\n",
        4,
        Cause::NoRoom { need: 4216 },
    ), // as many: no room at the end
    (
        "volume 72\nfile raw 00000001-0000-4000-8000-000000000001\nbody 00000000000000000000000000000000000000000000000000000000000000000000000000000000000000000000000000000000000000000000000000000000000000000000000000\n",
        3,
        Cause::NoRoom { need: 73 },
    ), // a body that is longer than the volume
    (
        "volume 96\nfile peim 00000001-0000-4000-8000-000000000001\nraw 00000000000000000000000000000000000000000000000000000000000000000000000000000000000000000000000000000000000000000000000000000000000000000000000000\ndepex pei (true and true) and ((true and true) and (true and true))\nraw 000000000000000000000000\n",
        5,
        Cause::NoRoom { need: 97 },
    ), // sections that are longer than it, with an expression of 12 bytes
    (
        "volume 128\nfile volume-image 00000001-0000-4000-8000-000000000001\nvolume 96\nend\nvolume 96\nend\n",
        6,
        Cause::NoRoom { need: 192 },
    ), // volumes that are longer than the one that they stand in
    (
        "volume 4096\nfile volume-image 00000001-0000-4000-8000-000000000001\nvolume 2048\nfile volume-image 00000001-0000-4000-8000-000000000001\nvolume 1024\nfile volume-image 00000001-0000-4000-8000-000000000001\nvolume 512\nfile volume-image 00000001-0000-4000-8000-000000000001\nvolume 72\n",
        9,
        Cause::Nesting,
    ), // a volume of depth 5
    (
        "volume 4096\nfile volume-image 00000001-0000-4000-8000-000000000001\nvolume 2048\nfile volume-image 00000001-0000-4000-8000-000000000001\nvolume 1024\nfile volume-image 00000001-0000-4000-8000-000000000001\nvolume 512\nend\nvolume 256\nvolume 72\n",
        10,
        Cause::NoFile,
    ), // two of depth 4, and one in front of the first file
    (
        "volume 4096\npad 0xffffe6\n",
        2,
        Cause::NoRoom { need: 0xffffe6 },
    ), // a pad that is longer than the volume
    (
        "volume 4096\nname 00000001-0000-4000-8000-000000000001\nname 00000001-0000-4000-8000-000000000001\n",
        3,
        Cause::TwoNames,
    ), // a second name
    ("volume 4096\nname\n", 2, Cause::Missing), // no name
    ("volume 4096\npad -7\n", 2, Cause::Number), // no number
    ("volume 4096\npad 0xffffe7\n", 2, Cause::Range), // longer than a file of FFS2
    ("volume 4096\npad 8 8\n", 2, Cause::Extra), // a word behind the length
    (
        "volume 115\nname 00000001-0000-4000-8000-000000000001\nend\n",
        3,
        Cause::NoRoom { need: 116 },
    ), // no room for a name
    (
        "volume 144\nname 00000001-0000-4000-8000-000000000001\nfile raw 00000001-0000-4000-8000-000000000001\nraw 00\nend\n",
        5,
        Cause::NoRoom { need: 149 },
    ), // too small a volume with a name
    ("volume 4096 ffs2 header 62\n", 1, Cause::Range), // a header without an entry of the block map
    ("volume 4096 ffs2 header 73\n", 1, Cause::Range), // an odd one
    ("volume 0x20000 ffs2 header 0x10000\n", 1, Cause::Range), // one of 17 bits
    ("volume 78 ffs2 header 80\n", 1, Cause::Range), // one longer than the volume
    ("volume 4096 ffs2 header\n", 1, Cause::Missing), // no length of the header
    ("volume 4096 ffs2 attributes 1 header 80\n", 1, Cause::Extra), // the header behind the attributes
    (
        "volume 4096\nname 00000001-0000-4000-8000-000000000001 at 71\n",
        2,
        Cause::Range,
    ), // a name in the header
    (
        "volume 4096 ffs2 header 98\nname 00000001-0000-4000-8000-000000000001\n",
        2,
        Cause::Range,
    ), // a name at the usual place, which is in the header
    (
        "volume 4096\nname 00000001-0000-4000-8000-000000000001 at 0x10000\n",
        2,
        Cause::Range,
    ), // a place of 17 bits
    (
        "volume 4096\nname 00000001-0000-4000-8000-000000000001 at 80 size 19\n",
        2,
        Cause::Range,
    ), // less than a name and its size
    (
        "volume 4096\nname 00000001-0000-4000-8000-000000000001 at\n",
        2,
        Cause::Missing,
    ), // no place
    (
        "volume 4096\nname 00000001-0000-4000-8000-000000000001 size 24 at 80\n",
        2,
        Cause::Extra,
    ), // the place behind the size
    (
        "volume 99\nname 00000001-0000-4000-8000-000000000001 at 80\nend\n",
        3,
        Cause::NoRoom { need: 100 },
    ), // a name behind the end
    (
        "volume 148\nname 00000001-0000-4000-8000-000000000001 at 80 size 37\nfile raw 00000001-0000-4000-8000-000000000001\nraw 00\nend\n",
        5,
        Cause::NoRoom { need: 149 },
    ), // too small a volume with room behind its name
    ("volume 4096 ffs2 attributes 0x100000000\n", 1, Cause::Range), // attributes of 33 bits
    ("volume 4096 ffs2 attributes\n", 1, Cause::Missing), // no attributes
    (
        "volume 4096\nfile raw 00000001-0000-4000-8000-000000000001 align 3\n",
        2,
        Cause::Range,
    ), // no alignment of a file
    (
        "volume 4096\nfile raw 00000001-0000-4000-8000-000000000001 align 16 fixed\n",
        2,
        Cause::Extra,
    ), // `fixed` behind the alignment
    (
        "volume 4096\nfile raw 00000001-0000-4000-8000-000000000001\nbody 00\nbody 00\n",
        4,
        Cause::TwoBodies,
    ), // a second body
    (
        "volume 4096\nfile raw 00000001-0000-4000-8000-000000000001\nbody 00\nraw 00\n",
        4,
        Cause::TwoBodies,
    ), // a section behind a body
    (
        "volume 4096\nfile raw 00000001-0000-4000-8000-000000000001\nraw 00\nbody 00\n",
        4,
        Cause::TwoBodies,
    ), // a body behind a section
    ("volume 4096\nbody 00\n", 2, Cause::NoFile), // a body before the first file
];

// Whether bytes begin with a front, have a length, and are 0xff after the front.
fn is_filled(bytes: &[u8], len: usize, front: &[u8]) -> bool {
    bytes.len() == len
        && front.len() <= len
        && bytes.iter().take(front.len()).eq(front.iter())
        && bytes.iter().skip(front.len()).all(|byte| *byte == 0xff)
}

// Whether a text makes a volume of a length with such a front.
fn makes(alloc: Global, text: &str, len: usize, front: &[u8]) -> bool {
    match volume_of(alloc, text.as_bytes()) {
        Ok(bytes) => is_filled(bytes.as_slice(), len, front),
        Err(_) => false,
    }
}

/// Texts, the length of the volume that each makes, and its front.
static MADE: [(&str, usize, &[u8]); 8] = [
    // The examples.
    (EVERY_SERVICE_LATE_TEXT, 1024, &EVERY_SERVICE_LATE_FRONT),
    (SCRIPT_BOOTED_BOOT_TEXT, 4096, &SCRIPT_BOOTED_BOOT_FRONT),
    (MEMORY_MOVE_BOOT_TEXT, 4096, &MEMORY_MOVE_BOOT_FRONT),
    (AUDIT_MAIN_TEXT, 8192, &AUDIT_MAIN_FRONT),
    // Names and pads.
    (NAMED_TEXT, 512, &NAMED_FRONT),
    (PLACED_TEXT, 256, &PLACED_FRONT),
    (PADDED_TEXT, 256, &PADDED_FRONT),
    // Attributes and bodies.
    (MARKED_TEXT, 256, &MARKED_FRONT),
];

#[test]
fn texts_make_their_volumes(rt: HostRuntime) {
    for (text, len, front) in &MADE {
        assert!(rt; makes(rt.alloc(), text, *len, front));
    }
}

#[test]
fn each_mistake_is_told_with_its_line_and_cause(rt: HostRuntime) {
    for (text, line, cause) in &MISTAKES {
        let fault = Fault {
            line: *line,
            cause: *cause,
        };
        let is_told = match volume_of(rt.alloc(), text.as_bytes()) {
            Ok(_) => false,
            Err(told) => told == TextFault::Bad(fault),
        };
        assert!(rt; is_told);
    }
}

/// Texts that make the same volume.
static SAME: [(&str, &str); 3] = [
    (
        "volume 512 ffs2 # all of it\nfile peim 00000001-0000-4000-8000-000000000001 # the first\n  # before\ndepex pei memory-ppi#\nscript pei#\nblock # 0\nlog a # b\nret Success # it went well\nend # of the script\nend # of all\n# behind\n",
        "volume 512\nfile peim 00000001-0000-4000-8000-000000000001\ndepex pei memory-ppi\nscript pei\nblock\nlog a # b\nret Success\nend\nend\n",
    ), // comments
    (
        "volume 512\nfile raw 00000001-0000-4000-8000-000000000001\nbody 0102 # 03\nfile freeform pei-apriori#1\nguids memory-ppi # dxe-ipl-ppi\nend\n",
        "volume 512\nfile raw 00000001-0000-4000-8000-000000000001\nbody 0102\nfile freeform pei-apriori\nguids memory-ppi\nend\n",
    ), // comments behind lists
    (
        "volume 512\nfile security-core 00000001-0000-4000-8000-000000000001\nfile pei-core 00000001-0000-4000-8000-000000000002\nfile dxe-core 00000001-0000-4000-8000-000000000003\nfile application 00000001-0000-4000-8000-000000000004\nend\n",
        "volume 512\nfile 03 00000001-0000-4000-8000-000000000001\nfile 04 00000001-0000-4000-8000-000000000002\nfile 05 00000001-0000-4000-8000-000000000003\nfile 09 00000001-0000-4000-8000-000000000004\nend\n",
    ), // types by their words
];

// Whether two texts make one volume.
fn make_one(alloc: Global, text: &str, other: &str) -> bool {
    match (
        volume_of(alloc, text.as_bytes()),
        volume_of(alloc, other.as_bytes()),
    ) {
        (Ok(first), Ok(second)) => first.as_slice() == second.as_slice(),
        _ => false,
    }
}

#[test]
fn comments_and_words_for_types_change_nothing(rt: HostRuntime) {
    for (text, other) in &SAME {
        assert!(rt; make_one(rt.alloc(), text, other));
    }
}
