// Lines that command a memory space map.
use gcd_map::{Command, GcdKind, one_reading, read_command};
use std::test::*;

/// Lines, and the commands that they spell.
static LINES: [(&[u8], Option<Command>); 26] = [
    (
        b"add  mmio 0x1F   010",
        Some(Command::Add {
            kind: GcdKind::Mmio,
            base: 31,
            len: 10,
        }),
    ),
    (
        b"allocate reserved 18446744073709551615 0",
        Some(Command::Allocate {
            kind: GcdKind::Reserved,
            base: u64::MAX,
            len: 0,
        }),
    ),
    (
        b"top nonexistent 0xff 1",
        Some(Command::Top {
            kind: GcdKind::NonExistent,
            align: 255,
            len: 1,
        }),
    ),
    (b"free 1 2", Some(Command::Free { base: 1, len: 2 })),
    (b"remove 1 2", Some(Command::Remove { base: 1, len: 2 })),
    (b"", None),
    (b"# free 1 2", None),
    (b"free", None),
    (b"free 1", None),
    (b"free 1 2 3", None),
    (b"remove system 1 2", None),
    (b"add 1 2", None),
    (b"add system 1", None),
    (b"add system 1 2 3", None),
    (b"top system 256 1", None),
    (b"top system 0x100 1", None),
    (b"Free 1 2", None),
    (b"add System 1 2", None),
    (b"add system, 1 2", None),
    (b"free 0X1 2", None),
    (b"free 0x 2", None),
    (b"free -1 2", None),
    (b"free 1 18446744073709551616", None),
    (b"free\t1 2", None),
    (b"free 1 2 ", None),
    (b" free 1 2", None),
];

#[test]
fn lines_spell_commands(rt: HostRuntime) {
    for (line, want) in &LINES {
        assert!(rt; read_command(line) == *want);
    }
    one_reading();
}
