// A text that pieces are written into.
ghost use Rattle.std.specs.Prelude.{◌<◌, ◌-◌, ◌^◌, length};

use boot_io::Sink;
use recorded_boot::trace::Spelled;
use std::test::*;

const TEXT: &[u8] = b"ab\ncd\nef";

// How many bytes of a text are matched after two pieces, the length of the next line, the number of the line, and whether all was matched.
fn behind(text: &[u8], first: &[u8], second: &[u8]) -> (usize, Option<usize>, u32, bool)
    requires { length text.now < 2 ^ 32 - 1 }
{
    let mut held = Spelled::new(text);
    let _first = held.put(first);
    let _second = held.put(second);
    let next = match held.next_line() {
        Some(line) => Some(line.len()),
        None => None,
    };
    (held.met().len(), next, held.line(), held.is_at_end())
}

/// Two pieces, and what is known after them.
static PIECES: [(&[u8], &[u8], (usize, Option<usize>, u32, bool)); 6] = [
    (b"", b"", (0, Some(2), 1, false)),
    (b"ab\n", b"c", (4, Some(1), 2, false)),
    (b"ab\n", b"cd\n", (6, None, 3, false)),
    (b"ab\ncd\n", b"ef", (8, None, 3, true)),
    (b"ab\ncd\nef", b"\n", (8, None, 3, false)),
    (b"ab\nd", b"cd\n", (3, None, 2, false)),
];

#[test]
fn pieces_are_held_against_a_text(rt: HostRuntime) {
    for (first, second, told) in &PIECES {
        assert!(rt; behind(TEXT, first, second) == *told);
    }
}
