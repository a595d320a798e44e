// Dependency expressions as a person writes them: both ways between their texts and their bytes, and each refusal once.
use crate::board::{are, repeated};
use asm_text::{TextFault, parse_depex, print_depex};
use depex_code::{read_depex, write_depex};
use pi_base::{Phase, Seq};
use std::alloc::Global;
use std::test::*;

/// Expressions as text, and their bytes.
static EXPRESSIONS: [(&[u8], &[u8]); 6] = [
    (b"sor true\n", &[9, 6, 8]),
    (b"(true or not false)\n", &[6, 7, 5, 4, 8]),
    (b"((true and false) and true)\n", &[6, 7, 3, 6, 3, 8]),
    (
        b"(03020100-0504-0706-0809-0a0b0c0d0e0f and not 13121110-1514-1716-1819-1a1b1c1d1e1f)\n",
        &[
            2, 0, 1, 2, 3, 4, 5, 6, 7, 8, 9, 10, 11, 12, 13, 14, 15, 2, 16, 17, 18, 19, 20, 21, 22,
            23, 24, 25, 26, 27, 28, 29, 30, 31, 5, 3, 8,
        ],
    ),
    (
        b"before 03020100-0504-0706-0809-0a0b0c0d0e0f\n",
        &[0, 0, 1, 2, 3, 4, 5, 6, 7, 8, 9, 10, 11, 12, 13, 14, 15, 8],
    ),
    (
        b"after 03020100-0504-0706-0809-0a0b0c0d0e0f\n",
        &[1, 0, 1, 2, 3, 4, 5, 6, 7, 8, 9, 10, 11, 12, 13, 14, 15, 8],
    ),
];

// The bytes of the expression whose text this is.
fn assembled(alloc: Global, text: &[u8]) -> Option<Seq<u8>> {
    match parse_depex(alloc, text) {
        Ok(depex) => write_depex(alloc, &depex).ok(),
        Err(_) => None,
    }
}

// The text of the expression whose bytes these are.
fn disassembled(alloc: Global, bytes: &[u8]) -> Option<Seq<u8>> {
    match read_depex(alloc, bytes, Phase::Dxe) {
        Ok(depex) => print_depex(alloc, &depex).ok(),
        Err(_) => None,
    }
}

#[test]
fn expressions_go_both_ways(rt: HostRuntime) {
    for (text, bytes) in &EXPRESSIONS {
        assert!(rt; are(assembled(rt.alloc(), text), bytes));
        assert!(rt; are(disassembled(rt.alloc(), bytes), text));
    }
}

/// Texts of no expression, and the line with which they go wrong.
static NO_EXPRESSIONS: [(&[u8], u32); 12] = [
    (b"", 1),
    (b"true", 1),
    (b"true\ntrue\n", 2),
    (b"true\n\n", 2),
    (b"TRUE\n", 1),
    (b"not  true\n", 1),
    (b"true \n", 1),
    (b"(true and false\n", 1),
    (b"true and false\n", 1),
    (b"sor sor true\n", 1),
    (b"before true\n", 1),
    // a GUID in upper case
    (b"before 03020100-0504-0706-0809-0A0B0C0D0E0F\n", 1),
];

// Why a text is not that of an expression. None if it is.
fn fault_of(alloc: Global, text: &[u8]) -> Option<TextFault> {
    parse_depex(alloc, text).err()
}

#[test]
fn what_is_no_expression_is_bad_at_its_line(rt: HostRuntime) {
    for (text, line) in &NO_EXPRESSIONS {
        assert!(rt; fault_of(rt.alloc(), text) == Some(TextFault::Bad { line: *line }));
    }
}

// The fault of TRUE after so many NOTs.
fn fault_of_nots(alloc: Global, count: usize) -> Option<TextFault> {
    fault_of(alloc, &repeated(alloc, b"", b"not ", count, b"true\n"))
}

#[test]
fn a_text_has_at_most_1023_opcodes(rt: HostRuntime) {
    assert!(rt; fault_of_nots(rt.alloc(), 1022).is_none());
    assert!(rt; fault_of_nots(rt.alloc(), 1023) == Some(TextFault::TooLong));
}
