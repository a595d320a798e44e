// Expressions in the words of an INF file: what they are read as, and each refusal.
use crate::board::{Text, whole};
use crate::gendepex::SPELLINGS;
use depex_code::{Depex, Opcode};
use pi_base::{Guid, OutOfMemory, Phase, Seq};
use source_words::depex::{ExpressionFault, read_expression};
use std::alloc::Global;
use std::process::Abort;
use std::test::*;

/// The words, each digit replaced by its GUID.
pub fn spelled_out(alloc: Global, words: &[u8]) -> Result<Seq<u8>, OutOfMemory> {
    let mut text = Seq::new(alloc);
    for byte in words {
        if byte.is_ascii_digit() {
            text.append(b"{0000000")?;
            text.push(*byte)?;
            text.append(b"-0000-4000-8000-00000000ABCD}")?;
        } else {
            text.push(*byte)?;
        }
    }
    Ok(text)
}

/// The digit of a GUID.
pub fn digit(guid: &Guid) -> u8 {
    if guid.0[0] < 10 {
        b'0' + guid.0[0]
    } else {
        b'?'
    }
}

// The sign of an opcode.
fn sign(opcode: &Opcode) -> u8 {
    match opcode {
        Opcode::Push(guid) => digit(guid),
        Opcode::And => b'&',
        Opcode::Or => b'|',
        Opcode::Not => b'!',
        Opcode::True => b'T',
        Opcode::False => b'F',
    }
}

// The signs of an expression's opcodes.
fn signs(alloc: Global, depex: &Depex) -> Result<Seq<u8>, OutOfMemory> {
    let mut out = Seq::new(alloc);
    match depex {
        Depex::Before(guid) => out.append(&[b'<', digit(guid)])?,
        Depex::After(guid) => out.append(&[b'>', digit(guid)])?,
        Depex::Expr { sor, tree } => {
            if *sor {
                out.push(b'S')?;
            }
            for opcode in tree.code() {
                out.push(sign(opcode))?;
            }
        }
    }
    out.push(b'.')?;
    Ok(out)
}

// Whether words are read as these opcodes.
fn is_read_as(alloc: Global, phase: Phase, words: &str, opcodes: &str) -> bool {
    let Ok(text) = spelled_out(alloc, words.as_bytes()) else {
        return false;
    };
    let Ok(depex) = read_expression(alloc, phase, text.as_slice()) else {
        return false;
    };
    match signs(alloc, &depex) {
        Ok(signs) => signs.as_slice() == opcodes.as_bytes(),
        Err(OutOfMemory) => false,
    }
}

// Whether the words of a line are read as its opcodes, in its phase. After the last line nothing is left.
fn is_read_so(alloc: Global, line: &str) -> bool {
    let Some((phase, line)) = line.split_once(' ') else {
        return line.is_empty();
    };
    let Some((words, opcodes)) = line.split_once(": ") else {
        return false;
    };
    match phase {
        "pei" => is_read_as(alloc, Phase::Pei, words, opcodes),
        "dxe" => is_read_as(alloc, Phase::Dxe, words, opcodes),
        _ => false,
    }
}

/// Other spellings of the words: blanks and brackets may be anywhere.
static OTHER_SPELLINGS: &str = "\
pei \t 1   and\t2 : 12&.\n\
pei ((1)AND(2))OR(3)end: 12&3|.\n\
pei not(not(TRUE)): T!!.\n\
pei 1 AND 2 OR 3: 123|&.\n\
";

#[test]
fn two_hundred_and_other_spellings_are_read_as_gendepex_reads_them(rt: HostRuntime) {
    for line in SPELLINGS.split('\n').chain(OTHER_SPELLINGS.split('\n')) {
        assert!(rt; is_read_so(rt.alloc(), line));
    }
}

/// Words that are no expression, and why.
static REFUSED: [(bool, &str, ExpressionFault); 21] = [
    (false, "", ExpressionFault::NoOperand),
    (false, "END", ExpressionFault::NoOperand),
    (false, "1 AND", ExpressionFault::NoOperand),
    (false, "1 AND END", ExpressionFault::NoOperand),
    (false, "AND 1", ExpressionFault::NoOperand),
    (false, "NOT", ExpressionFault::NoOperand),
    (false, "()", ExpressionFault::NoOperand),
    (false, "1 AND gEfiPeiCpuPpiGuid", ExpressionFault::NoGuid),
    (false, "TRUE TRUE", ExpressionFault::Extra),
    (false, "1 NOT 2", ExpressionFault::Extra),
    (false, "1 (2)", ExpressionFault::Extra),
    (false, "1 END 2", ExpressionFault::Extra),
    (false, "1 AND SOR", ExpressionFault::Extra),
    (false, "(1 AND 2", ExpressionFault::Bracket),
    (false, "(1 AND 2 END", ExpressionFault::Bracket),
    (false, "1)", ExpressionFault::Bracket),
    (false, "SOR TRUE", ExpressionFault::OtherPhase),
    (false, "BEFORE 1", ExpressionFault::OtherPhase),
    (true, "BEFORE", ExpressionFault::NoOperand),
    (true, "BEFORE TRUE", ExpressionFault::NoGuid),
    (true, "AFTER 1 AND 2", ExpressionFault::Extra),
];

// Why words are not an expression. None if they are one.
fn fault_of(alloc: Global, phase: Phase, words: &str) -> Option<ExpressionFault> {
    match spelled_out(alloc, words.as_bytes()) {
        Ok(text) => read_expression(alloc, phase, text.as_slice()).err(),
        Err(OutOfMemory) => None,
    }
}

#[test]
fn the_first_word_with_which_no_expression_goes_on_is_told(rt: HostRuntime) {
    for (of_driver, words, fault) in &REFUSED {
        let phase = if *of_driver { Phase::Dxe } else { Phase::Pei };
        assert!(rt; fault_of(rt.alloc(), phase, words) == Some(*fault));
    }
}

/// How many times words precede TRUE, and why that is not an expression. None if it is one.
static DEEP: [(Text, Option<ExpressionFault>); 4] = [
    (("", "(", 100_000, "TRUE"), Some(ExpressionFault::Bracket)),
    (
        ("", "not ", 100_000, "TRUE"),
        Some(ExpressionFault::TooLong),
    ),
    (("", "NOT ", 1022, "TRUE"), None),
    (("", "NOT ", 1023, "TRUE"), Some(ExpressionFault::TooLong)),
];

fn fault_behind(rt: &impl Abort, alloc: Global, text: &Text) -> Option<ExpressionFault> {
    let text = whole(rt, alloc, text);
    read_expression(alloc, Phase::Pei, text.as_slice()).err()
}

#[test]
fn depth_costs_no_stack_and_length_has_a_limit(rt: HostRuntime) {
    for (text, fault) in &DEEP {
        assert!(rt; fault_behind(&rt, rt.alloc(), text) == *fault);
    }
}
