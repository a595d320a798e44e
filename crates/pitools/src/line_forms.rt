// The forms of the lines of a volume's text, and the first word of a line that does not fit its form.
use line_words::{first_line, number_of};
use pi_base::{OutOfMemory, Phase, Seq};
use program_edge::line_at;
use source_words::{guid_of, is_keyword, next_word};
use std::alloc::Global;

/// A word that does not fit the form of its line.
pub(crate) struct Misfit<'a> {
    /// The column of its first character, from 1.
    pub(crate) column: usize,
    /// The word. It is empty if the line ends too early.
    pub(crate) word: &'a [u8],
    /// The form that is expected.
    pub(crate) form: &'static str,
}

// A form that a line begins with.
#[derive(Clone, Copy)]
struct Fit<'a> {
    // How many words of the line are as the form has them.
    count: usize,
    // The rest of the line, from the first word that is not.
    rest: &'a [u8],
    form: &'static str,
}

// The forms. N is a number, rN a register, TT two hexadecimal digits, E an expression, and .. any words up to the line's end. Words with | are one of several.
static FORMS: [&str; 30] = [
    "volume N",
    "volume N ffs2|ffs3",
    "volume N ffs2|ffs3 attributes N",
    "volume N ffs2|ffs3 header N",
    "volume N ffs2|ffs3 header N attributes N",
    "name GUID",
    "name GUID at N",
    "name GUID at N size N",
    "file TYPE GUID",
    "file TYPE GUID fixed",
    "file TYPE GUID align N",
    "file TYPE GUID fixed align N",
    "pad N",
    "depex pei|dxe E",
    "script pei|dxe",
    "guids ..",
    "raw ..",
    "section TT ..",
    "ui NAME",
    "body ..",
    "block",
    "end",
    "set rN N",
    "add rN N",
    "peek rN N",
    "log ..",
    "skip_if 0|1 N",
    "ret STATUS",
    "shadow",
    "dispatch",
];

// Those of scripts of PEI alone.
static PEI_FORMS: [&str; 15] = [
    "pool rN N",
    "store rN N ..",
    "addr rN rN N",
    "desc rN ppi GUID rN",
    "desc rN ppi at rN rN",
    "desc rN callback|dispatch GUID block N",
    "desc rN callback|dispatch at rN block N",
    "install rN ..",
    "reinstall rN rN",
    "notify rN ..",
    "locate rN rN GUID N",
    "hob N ..",
    "memory rN rN",
    "pages rN N N",
    "boot_mode get|set rN",
];

// Those of scripts of DXE alone.
static DXE_FORMS: [&str; 7] = [
    "install new|on rN GUID rN",
    "reinstall rN GUID rN rN",
    "uninstall rN GUID rN",
    "locate rN rN GUID",
    "notify GUID block N",
    "schedule GUID",
    "process rN",
];

// The words of expressions besides GUIDs.
static EXPRESSION_WORDS: &str = "true|false|not|and|or|sor|before|after|end|(|)";

static STATUSES: &str =
    "Success|InvalidParameter|NotFound|OutOfResources|NotAvailableYet|AlreadyStarted|AccessDenied";

static TYPES: &str =
    "raw|freeform|security-core|pei-core|dxe-core|peim|driver|combined|application|mm-dxe|volume-image";

// Whether a word is one of several.
fn is_among(choices: &str, word: &[u8]) -> bool {
    choices
        .split('|')
        .any(|choice| is_keyword(word, choice.as_bytes()))
}

// Whether a word is a register.
fn is_register(word: &[u8]) -> bool {
    match word {
        [b'r', digit] => digit.is_ascii_digit(),
        [b'r', b'1', digit] => *digit >= b'0' && *digit <= b'5',
        _ => false,
    }
}

// Whether a word is two hexadecimal digits.
fn is_byte(word: &[u8]) -> bool {
    word.len() == 2 && word.iter().all(|byte| byte.is_ascii_hexdigit())
}

// Whether a word fits a place of a form.
fn fits(slot: &str, word: &[u8]) -> bool {
    match slot {
        "N" => number_of(word).is_some(),
        "GUID" => guid_of(word).is_some(),
        "rN" => is_register(word),
        "TT" => is_byte(word),
        "TYPE" => is_among(TYPES, word) || is_byte(word),
        "STATUS" => is_among(STATUSES, word),
        "NAME" => true,
        _ => is_among(slot, word),
    }
}

// The rest of an expression from its first word that no expression has.
fn other_word(expression: &[u8]) -> Option<&[u8]> {
    let mut rest = expression;
    for _ in 0..expression.len() {
        let (word, behind) = next_word(rest)?;
        if !is_among(EXPRESSION_WORDS, word) && guid_of(word).is_none() {
            return Some(rest);
        }
        rest = behind;
    }
    None
}

// How far a line is as a form has it. None if it is so to its end.
fn fit_of<'a>(form: &'static str, line: &'a [u8]) -> Option<Fit<'a>> {
    let mut rest = line;
    let mut count = 0usize;
    for slot in form.split(' ') {
        if slot == ".." {
            return None;
        }
        if slot == "E" {
            let rest = other_word(rest)?;
            return Some(Fit { count, rest, form });
        }
        match next_word(rest) {
            Some((word, behind)) if fits(slot, word) => {
                rest = behind;
                count = count.saturating_add(1);
            }
            _ => return Some(Fit { count, rest, form }),
        }
    }
    match next_word(rest) {
        Some(_) => Some(Fit { count, rest, form }),
        None => None,
    }
}

// Of several forms and one before them, the one of which a line has the most words. None if it has all of one.
fn best_of<'a>(forms: &[&'static str], line: &'a [u8], before: Fit<'a>) -> Option<Fit<'a>> {
    let mut best = before;
    for form in forms {
        let found = fit_of(*form, line)?;
        if found.count > best.count {
            best = found;
        }
    }
    Some(best)
}

// The form of which a line has the most words. None if it has all of one, or not even the first word of any.
fn best_fit<'a>(of_phase: &[&'static str], line: &'a [u8]) -> Option<Fit<'a>> {
    let none = Fit {
        count: 0,
        rest: line,
        form: "",
    };
    let best = best_of(of_phase, line, best_of(FORMS.as_slice(), line, none)?)?;
    if best.count > 0 { Some(best) } else { None }
}

// The phase that a line `script` begins, if it is one.
fn phase_begun(line: &[u8]) -> Option<Phase> {
    let (keyword, words) = next_word(line)?;
    if !is_keyword(keyword, b"script") {
        return None;
    }
    match next_word(words) {
        Some((word, _)) if is_keyword(word, b"dxe") => Some(Phase::Dxe),
        _ => Some(Phase::Pei),
    }
}

// The phase of the last script that begins before a line.
fn phase_at(text: &[u8], number: u32) -> Phase {
    let mut phase = Phase::Pei;
    let mut rest = text;
    for _ in 1..number {
        if rest.is_empty() {
            return phase;
        }
        let (line, after) = first_line(rest);
        rest = after;
        if let Some(begun) = phase_begun(line) {
            phase = begun;
        }
    }
    phase
}

// How many blanks are at the front of a line.
fn blanks_in(line: &[u8]) -> usize {
    line.iter()
        .take_while(|byte| **byte == b' ' || **byte == b'\t')
        .count()
}

/// The first word of a line that does not fit the line's form.
pub(crate) fn misfit_in(text: &[u8], number: u32) -> Option<Misfit<'_>> {
    let line = line_at(text, number)?;
    let of_phase = match phase_at(text, number) {
        Phase::Dxe => DXE_FORMS.as_slice(),
        Phase::Pei => PEI_FORMS.as_slice(),
    };
    let Fit { rest, form, .. } = best_fit(of_phase, line)?;
    let word = match next_word(rest) {
        Some((word, _)) => word,
        None => &[],
    };
    let column = line
        .len()
        .saturating_sub(rest.len())
        .saturating_add(blanks_in(rest))
        .saturating_add(1);
    Some(Misfit { column, word, form })
}

/// The last line of a text that begins a volume or a script and has no `end`.
pub(crate) fn open_line(alloc: Global, text: &[u8]) -> Result<Option<u32>, OutOfMemory> {
    let mut open = Seq::new(alloc);
    let mut rest = text;
    for number in 1..u32::MAX {
        if rest.is_empty() {
            return Ok(open.pop());
        }
        let (line, after) = first_line(rest);
        rest = after;
        if let Some((keyword, _)) = next_word(line) {
            if is_keyword(keyword, b"volume") || is_keyword(keyword, b"script") {
                open.push(number)?;
            } else if is_keyword(keyword, b"end") {
                let _ = open.pop();
            }
        }
    }
    Ok(open.pop())
}
