// How the expressions of a volume's text are read, for a person.
use asm_text::print_depex;
use pi_base::{OutOfMemory, Phase, Seq};
use program_edge::Heard;
use source_words::depex::read_expression;
use source_words::{is_keyword, next_word};
use std::alloc::Global;
use std::str;

// Whether AND and OR are next to each other in one pair of brackets, or outside of all brackets.
fn mixes(alloc: Global, text: &[u8]) -> Result<bool, OutOfMemory> {
    let mut outer = Seq::new(alloc);
    let mut both = (false, false);
    let mut rest = text;
    for _ in 0..text.len() {
        let Some((word, behind)) = next_word(rest) else {
            return Ok(false);
        };
        if is_keyword(word, b"(") {
            outer.push(both)?;
            both = (false, false);
        } else if is_keyword(word, b")") {
            both = match outer.pop() {
                Some(known) => known,
                None => (false, false),
            };
        } else if is_keyword(word, b"and") {
            both.0 = true;
        } else if is_keyword(word, b"or") {
            both.1 = true;
        }
        if both == (true, true) {
            return Ok(true);
        }
        rest = behind;
    }
    Ok(false)
}

// The phase and the words of an expression, if a line has one.
fn expression_in(line: &[u8]) -> Option<(Phase, &[u8])> {
    let (keyword, rest) = next_word(line)?;
    let (phase, rest) = next_word(rest)?;
    if keyword != b"depex".as_slice() {
        return None;
    }
    if phase == b"pei".as_slice() {
        Some((Phase::Pei, rest))
    } else if phase == b"dxe".as_slice() {
        Some((Phase::Dxe, rest))
    } else {
        None
    }
}

// How a line's expression is read, if it mixes AND and OR.
fn reading_of(alloc: Global, line: &[u8]) -> Option<Seq<u8>> {
    let (phase, words) = expression_in(line)?;
    if !mixes(alloc, words).ok()? {
        return None;
    }
    let expression = read_expression(alloc, phase, words).ok()?;
    print_depex(alloc, &expression).ok()
}

/// Tells how each expression is read that mixes AND and OR without brackets.
pub(crate) fn tell_readings(rt: &HostRuntime, name: &str, heard: &Heard) -> Option<()> {
    let text = str::from_utf8(heard.content(name)?).ok()?;
    for (index, line) in text.lines().enumerate() {
        if let Some(reading) = reading_of(rt.alloc(), line.as_bytes()) {
            let number = index as u64 + 1;
            let reading = str::from_utf8(reading.as_slice()).ok()?.trim_end();
            let _ = eprintln!(rt;
                "pitools: {name}: line {number}: AND and OR are grouped from the right: {reading}"
            );
        }
    }
    Some(())
}
