// What would make an expression hold, row by row.
use crate::expressions::{digit, spelled_out};
use depex_code::GuidSet;
use explain_text::change_for;
use mod_catalog::PartExpr;
use pi_base::{Guid, OutOfMemory, Phase, Seq};
use source_words::depex::read_expression;
use std::alloc::Global;
use std::test::*;

/// The GUIDs whose first byte is below a number.
#[derive(Drop)]
struct FirstBelow(u8);

impl GuidSet for FirstBelow {
    ghost use Rattle.std.specs.Prelude.{nat_lt, slice_index};

    ghost has_guid = { λ s guid. nat_lt (slice_index guid.0 0) s.0 };

    ghost in_order = { λ _. Unit {0} };

    fn has(&self, guid: &Guid) -> bool {
        guid.0[0] < self.0
    }
}

fn put_digits(out: &mut Seq<u8>, guids: &[Guid]) -> Result<(), OutOfMemory> {
    for guid in guids {
        out.push(digit(guid))?;
    }
    Ok(())
}

// The digits of the GUIDs that must come, and behind a slash of those that must go. Nothing where no change is told.
fn change_of(alloc: Global, words: &str, below: u8) -> Result<Seq<u8>, OutOfMemory> {
    let text = spelled_out(alloc, words.as_bytes())?;
    let mut out = Seq::new(alloc);
    let Ok(depex) = read_expression(alloc, Phase::Dxe, text.as_slice()) else {
        return Ok(out);
    };
    let expr = PartExpr::Held(depex);
    if let Some(change) = change_for(alloc, &FirstBelow(below), Phase::Dxe, &expr)? {
        put_digits(&mut out, change.would.as_slice())?;
        out.push(b'/')?;
        put_digits(&mut out, change.unless.as_slice())?;
    }
    Ok(out)
}

/// The words of an expression, the first digit whose GUID is not installed, and the change. The last two rows have 32 ways in front of the NOT: those with 1 are kept, those with 2 are not.
static CHANGES: [(&str, u8, &str); 14] = [
    ("(1 OR 2) AND NOT 1", 0, "2/"),
    ("NOT NOT 1", 0, "1/"),
    ("(1 OR (2 AND 3)) AND NOT 1", 0, "23/"),
    ("(1 AND (1 AND 1)) OR (2 AND 3)", 0, "1/"),
    ("(2 OR 1) AND (1 OR 3)", 0, "1/"),
    ("(1 AND 1) OR 2", 0, "1/"),
    ("NOT 1", 2, "/1"),
    ("NOT 1 AND 2", 2, "2/1"),
    ("2 OR 1", 2, "/"),
    ("1 AND NOT 1", 0, ""),
    ("FALSE", 0, ""),
    ("BEFORE 1", 0, ""),
    (
        "((1 OR 2) AND (3 OR 4) AND (5 OR 6) AND (7 OR 8) AND (9 OR 0)) AND NOT 2",
        0,
        "13579/",
    ),
    (
        "((1 OR 2) AND (3 OR 4) AND (5 OR 6) AND (7 OR 8) AND (9 OR 0)) AND NOT 1",
        0,
        "",
    ),
];

#[test]
fn what_must_come_and_go_is_the_cheapest_of_sixteen_ways(rt: HostRuntime) {
    for (words, below, change) in &CHANGES {
        let is_so = match change_of(rt.alloc(), words, *below) {
            Ok(told) => told.as_slice() == change.as_bytes(),
            Err(OutOfMemory) => false,
        };
        assert!(rt; is_so);
    }
}
