// The bytes of dependency expressions, from the specification and made by hand: what is read, at which offset nothing is read, and whether it holds.
ghost use Rattle.std.specs.Prelude.{◌≡◌, ◌<◌, ◌≤◌, length};
ghost use Rattle.depex_code.specs.Tree.{postfix};

use crate::board::{list_of, repeated};
use depex_code::{Depex, DepexFault, GuidSet, Opcode, Steps, Tree, read_depex};
use pi_base::{Guid, Phase};
use std::alloc::Global;
use std::marker::Brand;
use std::process::Abort;
use std::sync::ledger::{Blank, Ledger};
use std::test::*;

/// The GUIDs whose first byte is below a number.
#[derive(Drop)]
struct FirstBelow(u8);

impl GuidSet for FirstBelow {
    ghost use Rattle.std.specs.Prelude.{nat_lt, slice_index};

    ghost has_guid = { λ s guid. nat_lt (slice_index guid.0 0) s.0 };

    ghost in_order = { λ _. Unit {0} };

    fn has(&self, guid: &Guid) -> bool {
        guid.0[0] < self.0
    }
}

const MOST: usize = 1023;

fn holds_in<L: Ledger>(tree: &Tree, set: &FirstBelow, blank: Blank) -> bool
    requires name { blank.name ≡ L.name }
    requires parts { blank.parts ≡ L.parts }
    requires some { 0 < L.parts }
    requires few { length (postfix tree.now) ≤ 1023 }
{
    let mut steps = Steps::<L>::new(blank);
    tree.holds(set, &mut steps)
}

// Whether a tree of at most 1,023 opcodes holds if the GUIDs below a first byte are installed.
fn truth(rt: &impl Abort, tree: &Tree, below: u8) -> bool {
    assert!(rt; tree.code().len() <= MOST);
    holds_in::<Brand>(tree, &FirstBelow(below), Blank::new(1))
}

// What was read: BEFORE or AFTER with the GUID's first byte, a tree with the number of its opcodes, or a fault with its place.
fn told(read: Result<Depex, DepexFault>) -> (u8, u32) {
    match read {
        Ok(Depex::Before(guid)) => (0, u32::from(guid.0[0])),
        Ok(Depex::After(guid)) => (1, u32::from(guid.0[0])),
        Ok(Depex::Expr { sor: false, tree }) => (2, tree.code().len().min(9999) as u32),
        Ok(Depex::Expr { sor: true, tree }) => (3, tree.code().len().min(9999) as u32),
        Err(DepexFault::Malformed(at)) => (4, at),
        Err(DepexFault::Memory) => (5, 0),
    }
}

const BEFORE_READ: u8 = 0;

const AFTER_READ: u8 = 1;

const TREE: u8 = 2;

const SOR_TREE: u8 = 3;

const MALFORMED: u8 = 4;

/// Bytes, and what is read from them in DXE and in PEI.
static READINGS: [(&[u8], (u8, u32), (u8, u32)); 27] = [
    // No bytes, and END alone.
    (&[], (MALFORMED, 0), (MALFORMED, 0)),
    (&[8], (MALFORMED, 0), (MALFORMED, 0)),
    // TRUE FALSE END leaves two values.
    (&[6, 7, 8], (MALFORMED, 2), (MALFORMED, 2)),
    (&[6, 8], (TREE, 1), (TREE, 1)),
    // Bytes after END are ignored.
    (&[6, 8, 0xee, 8], (TREE, 1), (TREE, 1)),
    // The end of the bytes.
    (&[6], (MALFORMED, 1), (MALFORMED, 1)),
    (&[6, 7, 3], (MALFORMED, 3), (MALFORMED, 3)),
    (&[6, 7, 3, 8], (TREE, 3), (TREE, 3)),
    (&[6, 7, 4, 5, 8], (TREE, 4), (TREE, 4)),
    // Too few values for AND, OR and NOT.
    (&[3, 8], (MALFORMED, 0), (MALFORMED, 0)),
    (&[6, 3, 8], (MALFORMED, 1), (MALFORMED, 1)),
    (&[6, 4, 8], (MALFORMED, 1), (MALFORMED, 1)),
    (&[5, 8], (MALFORMED, 0), (MALFORMED, 0)),
    // An unknown opcode, first and later.
    (&[0x0a, 8], (MALFORMED, 0), (MALFORMED, 0)),
    (&[6, 0xff, 8], (MALFORMED, 1), (MALFORMED, 1)),
    // PUSH whole, and cut short.
    (
        &[2, 9, 9, 9, 9, 9, 9, 9, 9, 9, 9, 9, 9, 9, 9, 9, 9, 8],
        (TREE, 1),
        (TREE, 1),
    ),
    (
        &[6, 2, 9, 9, 9, 9, 9, 9, 9, 9, 9, 9, 9, 9, 9, 9, 9],
        (MALFORMED, 1),
        (MALFORMED, 1),
    ),
    // BEFORE and AFTER whole; with another opcode, nothing and an unknown byte after; cut short.
    (
        &[0, 7, 7, 7, 7, 7, 7, 7, 7, 7, 7, 7, 7, 7, 7, 7, 7, 8],
        (BEFORE_READ, 7),
        (MALFORMED, 0),
    ),
    (
        &[1, 7, 7, 7, 7, 7, 7, 7, 7, 7, 7, 7, 7, 7, 7, 7, 7, 8],
        (AFTER_READ, 7),
        (MALFORMED, 0),
    ),
    (
        &[0, 7, 7, 7, 7, 7, 7, 7, 7, 7, 7, 7, 7, 7, 7, 7, 7, 6, 8],
        (MALFORMED, 17),
        (MALFORMED, 0),
    ),
    (
        &[1, 7, 7, 7, 7, 7, 7, 7, 7, 7, 7, 7, 7, 7, 7, 7, 7],
        (MALFORMED, 17),
        (MALFORMED, 0),
    ),
    (
        &[0, 7, 7, 7, 7, 7, 7, 7, 7, 7, 7, 7, 7, 7, 7, 7],
        (MALFORMED, 0),
        (MALFORMED, 0),
    ),
    // SOR first, with nothing but END, and in the middle.
    (&[9, 6, 8], (SOR_TREE, 1), (MALFORMED, 0)),
    (&[9, 8], (MALFORMED, 1), (MALFORMED, 0)),
    (&[9, 9, 6, 8], (MALFORMED, 1), (MALFORMED, 0)),
    (&[6, 9, 8], (MALFORMED, 1), (MALFORMED, 1)),
    // AFTER after a tree.
    (
        &[6, 1, 7, 7, 7, 7, 7, 7, 7, 7, 7, 7, 7, 7, 7, 7, 7, 7, 8],
        (MALFORMED, 1),
        (MALFORMED, 1),
    ),
];

#[test]
fn an_expression_is_read_or_refused_at_its_opcode(rt: HostRuntime) {
    for (bytes, dxe, pei) in &READINGS {
        assert!(rt; told(read_depex(rt.alloc(), bytes, Phase::Dxe)) == *dxe);
        assert!(rt; told(read_depex(rt.alloc(), bytes, Phase::Pei)) == *pei);
    }
}

// What is read if so many NOTs are between TRUE and END.
fn told_of_nots(alloc: Global, count: usize) -> (u8, u32) {
    told(read_depex(alloc, &repeated(alloc, &[6], &[5], count, &[8]), Phase::Pei))
}

#[test]
fn an_expression_has_at_most_1023_opcodes(rt: HostRuntime) {
    assert!(rt; told_of_nots(rt.alloc(), 1022) == (TREE, 1023));
    assert!(rt; told_of_nots(rt.alloc(), 1023) == (MALFORMED, 1024));
}

const ZERO: Opcode = Opcode::Push(Guid([0; 16]));

const ONE: Opcode = Opcode::Push(Guid([1; 16]));

/// Postfix opcodes, and whether they hold with no GUID, with the first, and with both. None if they are not those of a tree.
static TRUTHS: [(&[Opcode], Option<[bool; 3]>); 13] = [
    (&[Opcode::True], Some([true, true, true])),
    (&[Opcode::False], Some([false, false, false])),
    (&[ZERO], Some([false, true, true])),
    (&[ONE, Opcode::Not], Some([true, true, false])),
    (&[ZERO, ONE, Opcode::And], Some([false, false, true])),
    (&[ZERO, ONE, Opcode::Or], Some([false, true, true])),
    // One and not the other, in both orders.
    (
        &[ZERO, ONE, Opcode::Not, Opcode::And],
        Some([false, true, false]),
    ),
    (
        &[ONE, ZERO, Opcode::Not, Opcode::And],
        Some([false, false, false]),
    ),
    (
        &[
            ZERO,
            Opcode::False,
            ONE,
            Opcode::True,
            Opcode::And,
            Opcode::Or,
            Opcode::And,
        ],
        Some([false, false, true]),
    ),
    // What leaves no single value is no tree.
    (&[], None),
    (&[Opcode::True, Opcode::True], None),
    (&[Opcode::True, Opcode::And], None),
    (&[Opcode::Not, Opcode::True], None),
];

// Whether the tree of this code holds with no GUID, with the first, and with both. None if there is no tree.
fn truths_of(rt: &impl Abort, alloc: Global, code: &[Opcode]) -> Option<[bool; 3]> {
    match Tree::from_code(list_of(alloc, code)) {
        Some(tree) => {
            assert!(rt; tree.code() == code);
            Some([
                truth(rt, &tree, 0),
                truth(rt, &tree, 1),
                truth(rt, &tree, 2),
            ])
        }
        None => None,
    }
}

#[test]
fn an_expression_is_true_by_the_guids_that_are_there(rt: HostRuntime) {
    for (code, truths) in &TRUTHS {
        assert!(rt; truths_of(&rt, rt.alloc(), code) == *truths);
    }
}
