// Scripts as a person writes them: each action both ways between its text and its bytes, each refusal once, and the limits.
use crate::board::{are, joined, repeated};
use act_code::{read_script, write_script};
use asm_text::{TextFault, parse_script, print_script};
use pi_base::{Phase, Seq};
use std::alloc::Global;
use std::test::*;

/// Actions as text, and their bytes.
static ACTIONS: [(Phase, &[u8], &[u8]); 31] = [
    (Phase::Pei, b"set r1 0x10", &[1, 1, 16, 0, 0, 0, 0, 0, 0, 0]),
    (
        Phase::Dxe,
        b"add r15 0xffffffffffffffff",
        &[2, 15, 255, 255, 255, 255, 255, 255, 255, 255],
    ),
    (Phase::Pei, b"pool r2 0x18", &[3, 2, 24, 0, 0, 0]),
    (
        Phase::Pei,
        b"store r2 0x0 0aff",
        &[4, 2, 0, 0, 0, 0, 2, 10, 255],
    ),
    (Phase::Pei, b"addr r3 r2 0x4", &[6, 3, 2, 4, 0, 0, 0]),
    (Phase::Dxe, b"peek r3 64", &[7, 3, 64]),
    (
        Phase::Pei,
        b"desc r4 ppi 03020100-0504-0706-0809-0a0b0c0d0e0f r3",
        &[
            8, 4, 0, 0, 0, 1, 2, 3, 4, 5, 6, 7, 8, 9, 10, 11, 12, 13, 14, 15, 3,
        ],
    ),
    (
        Phase::Pei,
        b"desc r4 callback at r5 block 1",
        &[8, 4, 1, 1, 5, 1],
    ),
    (
        Phase::Pei,
        b"desc r4 dispatch 03020100-0504-0706-0809-0a0b0c0d0e0f block 1",
        &[
            8, 4, 2, 0, 0, 1, 2, 3, 4, 5, 6, 7, 8, 9, 10, 11, 12, 13, 14, 15, 1,
        ],
    ),
    (Phase::Pei, b"install r4 r5", &[9, 2, 4, 5]),
    (Phase::Pei, b"reinstall r4 r5", &[10, 4, 5]),
    (Phase::Pei, b"notify r4", &[11, 1, 4]),
    (
        Phase::Pei,
        b"locate r6 r7 03020100-0504-0706-0809-0a0b0c0d0e0f 300",
        &[
            12, 6, 7, 0, 1, 2, 3, 4, 5, 6, 7, 8, 9, 10, 11, 12, 13, 14, 15, 44, 1,
        ],
    ),
    (
        Phase::Pei,
        b"hob 6 0102030405060708",
        &[13, 6, 8, 0, 1, 2, 3, 4, 5, 6, 7, 8],
    ),
    (Phase::Pei, b"memory r8 r9", &[14, 8, 9]),
    (Phase::Pei, b"pages r1 4 0x2", &[15, 1, 4, 2, 0, 0, 0]),
    (Phase::Pei, b"boot_mode set r1", &[16, 1, 1]),
    (Phase::Pei, b"boot_mode get r10", &[16, 0, 10]),
    (Phase::Dxe, b"log a b", &[17, 3, 97, 32, 98]),
    (Phase::Dxe, b"skip_if 1 1", &[18, 1, 1]),
    (Phase::Pei, b"ret NotFound", &[19, 2]),
    (Phase::Pei, b"shadow", &[20]),
    (
        Phase::Dxe,
        b"install new r1 03020100-0504-0706-0809-0a0b0c0d0e0f r2",
        &[
            32, 0, 1, 0, 1, 2, 3, 4, 5, 6, 7, 8, 9, 10, 11, 12, 13, 14, 15, 2,
        ],
    ),
    (
        Phase::Dxe,
        b"install on r1 03020100-0504-0706-0809-0a0b0c0d0e0f r2",
        &[
            32, 1, 1, 0, 1, 2, 3, 4, 5, 6, 7, 8, 9, 10, 11, 12, 13, 14, 15, 2,
        ],
    ),
    (
        Phase::Dxe,
        b"reinstall r1 03020100-0504-0706-0809-0a0b0c0d0e0f r2 r3",
        &[
            33, 1, 0, 1, 2, 3, 4, 5, 6, 7, 8, 9, 10, 11, 12, 13, 14, 15, 2, 3,
        ],
    ),
    (
        Phase::Dxe,
        b"uninstall r1 03020100-0504-0706-0809-0a0b0c0d0e0f r2",
        &[
            34, 1, 0, 1, 2, 3, 4, 5, 6, 7, 8, 9, 10, 11, 12, 13, 14, 15, 2,
        ],
    ),
    (
        Phase::Dxe,
        b"locate r1 r2 03020100-0504-0706-0809-0a0b0c0d0e0f",
        &[
            35, 1, 2, 0, 1, 2, 3, 4, 5, 6, 7, 8, 9, 10, 11, 12, 13, 14, 15,
        ],
    ),
    (
        Phase::Dxe,
        b"notify 03020100-0504-0706-0809-0a0b0c0d0e0f block 1",
        &[36, 0, 1, 2, 3, 4, 5, 6, 7, 8, 9, 10, 11, 12, 13, 14, 15, 1],
    ),
    (
        Phase::Dxe,
        b"schedule 03020100-0504-0706-0809-0a0b0c0d0e0f",
        &[37, 0, 1, 2, 3, 4, 5, 6, 7, 8, 9, 10, 11, 12, 13, 14, 15],
    ),
    (Phase::Dxe, b"process r1", &[38, 1]),
    (Phase::Dxe, b"dispatch", &[39]),
];

// The bytes of the script whose text this is.
fn assembled(alloc: Global, text: &[u8]) -> Option<Seq<u8>> {
    match parse_script(alloc, text) {
        Ok(script) => write_script(alloc, &script).ok(),
        Err(_) => None,
    }
}

// The text of the script whose bytes these are.
fn disassembled(alloc: Global, bytes: &[u8]) -> Option<Seq<u8>> {
    match read_script(alloc, bytes) {
        Ok(script) => print_script(alloc, &script).ok(),
        Err(_) => None,
    }
}

/// What is before the action and after it: two rets, and another block.
const PEI_TEXT: &[u8] = b"phase pei\nblock\n";

static DXE_TEXT: &[u8] = b"phase dxe\nblock\n";

static TEXT_BEHIND: &[u8] = b"\nret Success\nret Success\nblock\nret Success\n";

/// The bytes of the same.
static PEI_BYTES: &[u8] = &[0x50, 0x49, 0x41, 0x53, 1, 1, 2, 0, 3, 0];

static DXE_BYTES: &[u8] = &[0x50, 0x49, 0x41, 0x53, 1, 2, 2, 0, 3, 0];

static BYTES_BEHIND: &[u8] = &[19, 0, 19, 0, 1, 0, 19, 0];

// Whether an action in a script goes both ways between its text and its bytes.
fn goes_both_ways(alloc: Global, phase: Phase, line: &[u8], action: &[u8]) -> bool {
    let (text_front, bytes_front) = match phase {
        Phase::Pei => (PEI_TEXT, PEI_BYTES),
        Phase::Dxe => (DXE_TEXT, DXE_BYTES),
    };
    let text = joined(alloc, &[text_front, line, TEXT_BEHIND]);
    let bytes = joined(alloc, &[bytes_front, action, BYTES_BEHIND]);
    are(assembled(alloc, &text), &bytes) && are(disassembled(alloc, &bytes), &text)
}

#[test]
fn actions_go_both_ways(rt: HostRuntime) {
    for (phase, line, action) in &ACTIONS {
        assert!(rt; goes_both_ways(rt.alloc(), *phase, line, action));
    }
}

/// Texts of no script, and the line with which they go wrong.
static NO_SCRIPTS: [(&[u8], u32); 20] = [
    (b"", 1),
    (b"phase mm\n", 1),
    (b"phase pei\n", 2),
    (b"phase pei\nlog a\n", 2),
    (b"phase pei\nblock\nblock\n", 3),
    (b"phase pei\nblock\nlog a\n", 4),
    (b"phase pei\nblock\nret Success", 3),
    (b"phase pei\nblock\nret  Success\n", 3),
    (b"phase pei\nblock\nret Success\n\n", 4),
    (b"phase dxe\nblock\npool r1 0x1\nret Success\n", 3),
    (b"phase pei\nblock\nset r16 0x1\nret Success\n", 3),
    (b"phase pei\nblock\npool r1 0x100000000\nret Success\n", 3),
    // numbers that are not in their printed form
    (b"phase pei\nblock\nset r1 0X1\nret Success\n", 3),
    (b"phase pei\nblock\nset r1 0x01\nret Success\n", 3),
    (b"phase pei\nblock\nstore r1 0x0 0A\nret Success\n", 3),
    (b"phase pei\nblock\nskip_if 0 1\nret Success\n", 5),
    (b"phase pei\nblock\nskip_if 0 1\nret Success\nblock\n", 5),
    (b"phase pei\nblock\nhob 6 01\nret Success\n", 3),
    (
        b"phase dxe\nblock\nnotify 03020100-0504-0706-0809-0a0b0c0d0e0f block 1\nret Success\n",
        5,
    ),
    (
        b"phase dxe\nblock\nnotify 03020100-0504-0706-0809-0a0b0c0d0e0f block 64\nret Success\n",
        3,
    ),
];

// Why a text is not that of a script. None if it is.
fn fault_of(alloc: Global, text: &[u8]) -> Option<TextFault> {
    parse_script(alloc, text).err()
}

#[test]
fn what_is_no_script_is_bad_at_its_line(rt: HostRuntime) {
    for (text, line) in &NO_SCRIPTS {
        assert!(rt; fault_of(rt.alloc(), text) == Some(TextFault::Bad { line: *line }));
    }
}

/// One of 992 equal lines. Its text of 64 characters takes 66 bytes.
const LONG: &[u8] = b"log 0123456789abcdef0123456789abcdef0123456789abcdef0123456789abcdef\n";

/// The last lines of the longest script, and of one that is a byte longer.
const LAST: &[u8] = b"log 0123456789abcdef0123456789abcdef0123456789abcdef01\nret Success\n";

const LAST_LONGER: &[u8] =
    b"log 0123456789abcdef0123456789abcdef0123456789abcdef012\nret Success\n";

/// Lines, a line and how many times it follows them, other lines, and why the text is not that of a script. None if it is.
static LIMITS: [(&[u8], &[u8], usize, &[u8], Option<TextFault>); 10] = [
    // 1,024 actions
    (
        b"phase pei\nblock\n",
        b"log a\n",
        1023,
        b"ret Success\n",
        None,
    ),
    // and one that is no ret, or one more
    (
        b"phase pei\nblock\n",
        b"log a\n",
        1024,
        b"",
        Some(TextFault::Bad { line: 1026 }),
    ),
    (
        b"phase pei\nblock\n",
        b"ret Success\n",
        1024,
        b"ret Success\n",
        Some(TextFault::Bad { line: 1027 }),
    ),
    // 64 blocks
    (b"phase pei\n", b"block\nret Success\n", 64, b"", None),
    (
        b"phase pei\n",
        b"block\nret Success\n",
        64,
        b"block\n",
        Some(TextFault::Bad { line: 130 }),
    ),
    // an action that skips 255, 257 before the block's last place and 256
    (
        b"phase pei\nblock\n",
        b"log a\n",
        767,
        b"skip_if 0 255\n",
        Some(TextFault::Bad { line: 771 }),
    ),
    (
        b"phase pei\nblock\n",
        b"log a\n",
        768,
        b"skip_if 0 255\n",
        Some(TextFault::Bad { line: 771 }),
    ),
    // the highest number of a block, which no script reaches
    (
        b"phase dxe\n",
        b"block\nnotify 03020100-0504-0706-0809-0a0b0c0d0e0f block 63\nret Success\n",
        63,
        b"",
        Some(TextFault::Bad { line: 191 }),
    ),
    // 65,536 bytes, and one more
    (PEI_TEXT, LONG, 992, LAST, None),
    (PEI_TEXT, LONG, 992, LAST_LONGER, Some(TextFault::TooLong)),
];

#[test]
fn scripts_keep_within_their_limits(rt: HostRuntime) {
    for (front, line, count, behind, fault) in &LIMITS {
        let text = repeated(rt.alloc(), front, line, *count, behind);
        assert!(rt; fault_of(rt.alloc(), &text) == *fault);
    }
}
