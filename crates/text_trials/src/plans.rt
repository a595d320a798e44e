// The text of a boot plan: what is read of it, and the first bad line with its cause.
use crate::board::{MOST_TEXT, joined, repeated};
use boot_plan::PlanCause::*;
use boot_plan::{PlanCause, one_reading, read_plan};
use std::alloc::Global;
use std::process::Abort;
use std::test::*;

// The usual plan.
const USUAL: &[u8] = b"temp 0x80000000 0x10000\nram 0x40000000 0x4000000\nvolume 0xfff00000 a.fv\n";

/// The first bad line of a text with its cause. None if it is a plan.
type Fault = Option<(u32, PlanCause)>;

// The fault of a text. If the text is too long, it is one that no test expects.
fn fault_of(alloc: Global, text: &[u8]) -> Fault {
    if text.len() >= MOST_TEXT {
        return Some((0, Memory));
    }
    match read_plan(alloc, text) {
        Ok(_) => None,
        Err(fault) => Some((fault.line, fault.cause)),
    }
}

// Each line after a text gives this answer.
fn check(rt: &impl Abort, alloc: Global, front: &[u8], rows: &[(&[u8], Fault)]) {
    for (line, want) in rows {
        assert!(rt; fault_of(alloc, &joined(alloc, &[front, line])) == *want);
    }
}

/// A plan with all that its text may have.
const WHOLE: &[u8] = b"# a comment\x00\xff\r\n\nram 1073741824 0x4000000\r\nfuel 000007\n#\n\
    pages 0xC000\ntemp   0x00080000000  0x10000\nvolume 0xfff00000 a.fv\nvolume 0x100000 ~!";

// The numbers of a plan: its temporary RAM and its RAM, each with its length, its fuel and its pages, and how many volumes it has.
fn numbers_of(alloc: Global, text: &[u8]) -> Option<([u64; 6], usize)> {
    if text.len() >= MOST_TEXT {
        return None;
    }
    match read_plan(alloc, text) {
        Ok(plan) => {
            let (temp, ram) = (plan.temp, plan.ram);
            let (fuel, pages) = (u64::from(plan.fuel), plan.pages);
            let numbers = [temp.base, temp.len, ram.base, ram.len, fuel, pages];
            Some((numbers, plan.volumes.len()))
        }
        Err(_) => None,
    }
}

/// Plans, their numbers, and how many volumes they have.
static NUMBERS: [(&[u8], [u64; 6], usize); 2] = [
    (
        WHOLE,
        [0x8000_0000, 0x1_0000, 0x4000_0000, 0x400_0000, 7, 0xc000],
        2,
    ),
    (
        USUAL,
        [0x8000_0000, 0x1_0000, 0x4000_0000, 0x400_0000, 100_000, 0],
        1,
    ),
];

#[test]
fn a_plan_is_read(rt: HostRuntime) {
    for (text, numbers, volumes) in &NUMBERS {
        assert!(rt; numbers_of(rt.alloc(), text) == Some((*numbers, *volumes)));
    }
    one_reading();
}

/// Texts, and the first bad line with its cause. None if they are plans.
static PLANS: [(&[u8], Fault); 34] = [
    (USUAL, None),
    (
        b"temp 0x80000000 0x10000\nram 0x80008000 0x100000\nvolume 0xfff00000 a.fv",
        Some((2, Overlap)),
    ),
    (
        b"ram 0x80008000 0x100000\nvolume 0xfff00000 a.fv\ntemp 0x80000000 0x10000\n\n",
        Some((3, Overlap)),
    ),
    (
        b"temp 0x80000000 0x10000\nram 0x80010000 0x1000\nvolume 0x100000 a",
        None,
    ),
    (
        b"temp 0x80000000 0x10000\nram 0x40000000 0x4000000",
        Some((3, Missing)),
    ),
    (
        b"temp 0x80000000 0x10000\nram 0x40000000 0x4000000\n",
        Some((3, Missing)),
    ),
    (
        b"temp 0x80000000 0x10000\nram 0x40000000 0x4000000\n\n#",
        Some((5, Missing)),
    ),
    (b"", Some((1, Missing))),
    (b"\n", Some((2, Missing))),
    (b"\r\n", Some((2, Missing))),
    (b"\r", Some((1, Word))),
    (b"\n\n #", Some((3, Word))),
    (
        b"temp 0x80000000 0x4000\nvolume 0x100000 a",
        Some((3, Missing)),
    ),
    (
        b"ram 0x40000000 0x1000\nvolume 0x100000 a",
        Some((3, Missing)),
    ),
    (
        b"temp 0x80000000 0x10000\nram 0x80008000 0x100000\n",
        Some((3, Missing)),
    ),
    (
        b"temp 0x80000000 0x10000\npages 0xd000\nram 0x80008000 0x1000\nvolume 0x100000 a",
        Some((3, Overlap)),
    ),
    (
        b"pages 0xd000\ntemp 0x80000000 0x10000\nram 0x40000000 0x1000\nvolume 0x100000 a",
        Some((1, Room)),
    ),
    (
        b"temp 0x80000000 0x10000\nram 0x40000000 0x1000\nvolume 0x100000 a\nfuel 0\nbad",
        Some((4, Limit)),
    ),
    (
        b"temp 0x100000 0x4000\nram 0xfff0000000 0x10000000\nvolume 0x100000 a",
        None,
    ),
    (
        b"temp 0x80000000 0x100000\nram 0x40000000 0x10000000\nvolume 0xfffffffffffffff8 a",
        None,
    ),
    // Single lines of memory.
    (b"temp 0x80000000 0x3000", Some((1, Limit))),
    (b"temp 0x80000000 0x101000", Some((1, Limit))),
    (b"temp 0x80000001 0x4000", Some((1, Limit))),
    (b"temp 0x80000000 0x4800", Some((1, Limit))),
    (b"temp 0xff000 0x4000", Some((1, Limit))),
    (b"temp 0xfffffff000 0x4000", Some((1, Limit))),
    (b"temp 0x10000000000 0x4000", Some((1, Limit))),
    (b"temp 0xfffffffffffff000 0x4000", Some((1, Limit))),
    (b"temp 0xff000 0x10000000000000000", Some((1, Number))),
    (b"ram 0x40000000 0", Some((1, Limit))),
    (b"ram 0x40000000 0x10001000", Some((1, Limit))),
    (b"ram 0x40000800 0x1000", Some((1, Limit))),
    (b"ram 0xffffff000 0x1000\n#", Some((3, Missing))),
    (b"ram 0xfffffff000 0x2000", Some((1, Limit))),
];

/// Lines after the usual plan, and the first bad line with its cause. None if it is then a plan.
static LINES: [(&[u8], Fault); 44] = [
    (b"fuel 1", None),
    (b"fuel 1000000", None),
    (b"fuel 0xF4240", None),
    (b"fuel 0x00000000000000001", None),
    (b"pages 0xc000", None),
    (b"pages 0x1000\r\n", None),
    (b"volume 0x100008 !\n", None),
    (b"  ", Some((4, Word))),
    (b" fuel 1", Some((4, Word))),
    (b"fuel 1 ", Some((4, Word))),
    (b"fuel 1 \n", Some((4, Word))),
    (b"fuel 1\r", Some((4, Word))),
    (b"fuel\t1", Some((4, Word))),
    (b"fuel 1\x7f", Some((4, Word))),
    (b"fuel", Some((4, Word))),
    (b"fuel 1 2", Some((4, Word))),
    (b"pages 1 2", Some((4, Word))),
    (b"volume 0x100000", Some((4, Word))),
    (b"volume 0x100000 a b", Some((4, Word))),
    (b"temp 0x80000000", Some((4, Word))),
    (b"Fuel 1", Some((4, Word))),
    (b"fuels 1", Some((4, Word))),
    (b"fuel ", Some((4, Word))),
    (b"temp x y", Some((4, Twice))),
    (b"ram 0 0", Some((4, Twice))),
    (b"fuel 1\nfuel x", Some((5, Twice))),
    (b"pages 0x1000\npages 0", Some((5, Twice))),
    (b"fuel x", Some((4, Number))),
    (b"fuel 0x", Some((4, Number))),
    (b"fuel 0X1", Some((4, Number))),
    (b"fuel +1", Some((4, Number))),
    (b"fuel 1a", Some((4, Number))),
    (b"fuel 0x10000000000000001", Some((4, Number))),
    (b"fuel 18446744073709551616", Some((4, Number))),
    (b"fuel 18446744073709551615", Some((4, Limit))),
    (b"fuel 0", Some((4, Limit))),
    (b"fuel 1000001", Some((4, Limit))),
    (b"pages 0", Some((4, Limit))),
    (b"pages 0x1001", Some((4, Limit))),
    (b"pages 0x101000", Some((4, Limit))),
    (b"pages 0xd000", Some((4, Room))),
    (b"volume 0xfffff a", Some((4, Limit))),
    (b"volume 0xffff8 a", Some((4, Limit))),
    (b"volume 0x100004 a", Some((4, Limit))),
];

/// Lines after a plan of sixteen volumes.
static BEHIND_SIXTEEN: [(&[u8], Fault); 4] = [
    (b"", None),
    (b"volume 0x100000 a", Some((19, Limit))),
    (b"volume x a", Some((19, Number))),
    (b"volume x a b", Some((19, Word))),
];

/// What is after a name of 255 letters.
static BEHIND_A_NAME: [(&[u8], Fault); 3] = [(b"", None), (b"\n", None), (b"n", Some((4, Word)))];

#[test]
fn a_plan_is_refused_at_its_first_bad_line(rt: HostRuntime) {
    let alloc = rt.alloc();
    check(&rt, alloc, b"", &PLANS);
    check(&rt, alloc, USUAL, &LINES);
    let sixteen = repeated(alloc, USUAL, b"volume 0x100000 a\n", 15, b"");
    check(&rt, alloc, &sixteen, &BEHIND_SIXTEEN);
    let named = repeated(alloc, USUAL, b"volume 0x100000 ", 1, &[b'n'; 255]);
    check(&rt, alloc, &named, &BEHIND_A_NAME);
}
