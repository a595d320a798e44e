// Reports to a person on a run: what is at fault, and what to do.
use crate::cause_meaning::{source_words, words_for};
use crate::forms::PROGRAM;
use crate::line_forms::{Misfit, misfit_in, open_line};
use crate::order_meaning::{LINE_FORMS, against_words, boot_words};
use crate::source_meaning::tell_readings;
use program_edge::{FileKind, Heard, line_at, text_of};
use tools_core::ToolStatus;

// The most bytes of a line that is shown.
const SHOWN_LEN: usize = 200;

const USAGE: &str =
    "usage: pitools check PLAN TRACE | pitools follow PLAN ORDER | pitools passes PLAN | pitools hobs PLAN [passes] | pitools explain PLAN [TRACE | passes] | pitools gcd HOBS COMMANDS | pitools mp FILE | pitools volume TEXT | pitools text VOLUME | pitools asm depex|script FILE | pitools dis pei|dxe|script FILE";

// The word after so many words.
fn word_at(words: &[String], place: usize) -> &str {
    match words.get(place) {
        Some(word) => word.as_str(),
        None => "a file",
    }
}

// Whether the words ask for a boot in the order of EDK2's dispatchers, or for its explanation.
fn is_in_turns(words: &[String]) -> bool {
    let verb = word_at(words, 0);
    verb == "passes" || (verb == "explain" && word_at(words, 2) == "passes")
}

// The tools, and what each takes.
static VERB_WORDS: [(&str, &str); 11] = [
    ("check", "takes the names of two files behind it"),
    ("follow", "takes the names of two files behind it"),
    ("gcd", "takes the names of two files behind it"),
    ("mp", "takes the name of a file behind it"),
    (
        "hobs",
        "takes the name of a plan behind it, and may take the word passes",
    ),
    ("passes", "takes the name of a file behind it"),
    ("volume", "takes the name of a file behind it"),
    ("text", "takes the name of a file behind it"),
    (
        "explain",
        "takes the name of a plan behind it, and may take that of a trace, or the word passes",
    ),
    (
        "asm",
        "takes depex or script behind it, and the name of a file",
    ),
    (
        "dis",
        "takes pei, dxe or script behind it, and the name of a file",
    ),
];

// The words that have no form.
fn tell_usage(rt: &HostRuntime, words: &[String]) {
    let usage = USAGE;
    match words {
        [] => PROGRAM.put(rt, "no word is given, or one that is no UTF-8", usage),
        [verb, ..] => {
            let verb = verb.as_str();
            let fault = words_for(&VERB_WORDS, verb, "is no tool");
            let _ = eprintln!(rt; "pitools: {verb:?} {fault}; {usage}");
        }
    }
}

// A line of a file, and why it is refused.
fn tell_numbered(
    rt: &HostRuntime,
    name: &str,
    heard: &Heard,
    number: u32,
    why: &str,
) -> Option<()> {
    match line_at(heard.content(name)?, number) {
        Some(line) => {
            let shown = match line.get(..SHOWN_LEN) {
                Some(front) => front,
                None => line,
            };
            let shown = text_of(shown);
            let _ = eprintln!(rt; "pitools: {name}: line {number}: {shown:?} {why}");
        }
        None => {
            let _ = eprintln!(rt;
                "pitools: {name}: line {number}, where the file ends: what is there {why}"
            );
        }
    }
    Some(())
}

// The line of a file that a refusal names last, and why it is refused.
fn tell_line(rt: &HostRuntime, name: &str, heard: &Heard, why: &str) -> Option<()> {
    let number = heard
        .last()?
        .split_whitespace()
        .last()?
        .parse::<u32>()
        .ok()?;
    tell_numbered(rt, name, heard, number, why)
}

// The line of a trace that no boot prints there, and that the trace has carriage returns, if it does.
fn tell_trace(rt: &HostRuntime, name: &str, heard: &Heard) -> Option<()> {
    tell_line(
        rt,
        name,
        heard,
        "is printed there by no boot of the plan that the rules allow; docs/CHECK.md says how to read it",
    )?;
    if heard.content(name)?.iter().any(|byte| *byte == b'\r') {
        let _ = eprintln!(rt;
            "pitools: {name}: it has carriage returns (CR); a boot prints lines that end with LF alone"
        );
    }
    Some(())
}

// Reports the line of an order that its boot refuses, and why its start is not possible.
fn tell_start(rt: &HostRuntime, name: &str, heard: &Heard) -> Option<()> {
    let number = heard
        .before_last()?
        .split_whitespace()
        .last()?
        .parse::<u32>()
        .ok()?;
    tell_numbered(rt, name, heard, number, against_words(heard.last()?))
}

// The line of a volume's text that a refusal names before its cause, the word that does not fit its form, and the line that is open at the text's end.
fn tell_source(rt: &HostRuntime, name: &str, heard: &Heard) -> Option<()> {
    let mut words = heard.last()?.split_whitespace().skip(2);
    let number = words.next()?.parse::<u32>().ok()?;
    let cause = words.next()?;
    let text = heard.content(name)?;
    tell_numbered(rt, name, heard, number, source_words(cause))?;
    let _ = if cause == "NoEnd" {
        tell_open(rt, name, text)
    } else {
        tell_misfit(rt, name, text, number)
    };
    Some(())
}

// The first word of a line that does not fit the line's form, if there is one.
fn tell_misfit(rt: &HostRuntime, name: &str, text: &[u8], number: u32) -> Option<()> {
    let Misfit { column, word, form } = misfit_in(text, number)?;
    let word = text_of(word);
    let _ = if word.is_empty() {
        eprintln!(rt;
            "pitools: {name}: line {number}, column {column}: the line ends there; its form is: {form}"
        )
    } else {
        eprintln!(rt;
            "pitools: {name}: line {number}, column {column}: {word:?} does not fit; the line's form is: {form}"
        )
    };
    Some(())
}

// Which line is open at the end of a text.
fn tell_open(rt: &HostRuntime, name: &str, text: &[u8]) -> Option<()> {
    let number = open_line(rt.alloc(), text).ok()??;
    let line = text_of(line_at(text, number)?);
    let _ = eprintln!(rt; "pitools: {name}: line {number}: {line:?} has no line `end`");
    Some(())
}

// The causes of a HOB list, and what each means.
static HOB_WORDS: [(&str, &str); 8] = [
    ("Short", "fewer than 8 bytes are left for a HOB's header"),
    (
        "Length",
        "a HOB's length is below 8, no multiple of 8, or more than is left",
    ),
    (
        "Form",
        "a HOB of a known type has another length, or the list begins with no hand-off HOB of version 9",
    ),
    ("NoEnd", "the list has no end HOB"),
    (
        "NoCpu",
        "the list has no CPU HOB (type 6), which says how many bits an address has",
    ),
    ("Bits", "the CPU HOB's memory bits are not 12 to 52"),
    (
        "Range",
        "a resource has length 0, or ends behind the address space",
    ),
    ("Overlap", "a resource meets an earlier one"),
];

// The causes of bytes that are no expression or script, and what each means.
static BYTE_WORDS: [(&str, &str); 8] = [
    (
        "Malformed",
        "no expression goes on there: the opcode is unknown, cut short or of the other phase, or it leaves another number of values than one; what asm prints becomes bytes by xxd -r -p",
    ),
    (
        "Magic",
        "the script is shorter than 8 bytes, or does not begin with PIAS; what asm prints becomes bytes by xxd -r -p",
    ),
    ("Version", "the script's version is not 1"),
    ("Phase", "the script's phase is neither 1 (PEI) nor 2 (DXE)"),
    (
        "Count",
        "the script has no block or more than 64, or bytes behind its last block",
    ),
    (
        "Block",
        "a block has no action or more than 1024, or its last one is no ret",
    ),
    (
        "Action",
        "the action is none of the phase, is cut short, or an operand is out of its range",
    ),
    (
        "Jump",
        "skip_if passes the end of its block; an action has to stand behind those that it skips",
    ),
];

// The offset of a file that a refusal names last, after its cause.
fn tell_place(rt: &HostRuntime, name: &str, heard: &Heard, of_hobs: bool) -> Option<()> {
    let mut words = heard.last()?.split_whitespace().skip(2);
    let cause = words.next()?;
    let at = words.next()?;
    let why = if of_hobs {
        words_for(
            &HOB_WORDS,
            cause,
            "an allocation has length 0, or an address that is not free system memory",
        )
    } else {
        words_for(
            &BYTE_WORDS,
            cause,
            "a register is above r15, or the script has no block of this number",
        )
    };
    let _ = eprintln!(rt; "pitools: {name}: at {at}: {why}");
    Some(())
}

// A text or bytes that are refused: a text by its line, unless it is too long, and bytes by their offset.
fn tell_text(rt: &HostRuntime, words: &[String], heard: &Heard) -> Option<()> {
    if word_at(words, 0) == "volume" {
        return tell_source(rt, word_at(words, 1), heard);
    }
    let name = word_at(words, 2);
    if word_at(words, 0) == "dis" {
        return tell_place(rt, name, heard, false);
    }
    if heard.last() == Some("refused text long") {
        PROGRAM.put(
            rt,
            name,
            "the text is right, but has more than 1024 opcodes, or 65536 bytes of a script",
        );
        return Some(());
    }
    tell_line(
        rt,
        name,
        heard,
        "goes on no text; docs/TOOLS.md has the forms: single spaces, lower case, no indentation, and a line feed at the end",
    )
}

// What a line of commands or of events may be.
fn command_words(words: &[String]) -> &'static str {
    if word_at(words, 0) == "mp" {
        "is none of: mp N C first, then all BY OP.., this BY P OP.., enable BY P, disable BY P, switch BY P on|off, who BY, turn P; OP is add=CELL:N or put=N"
    } else {
        "is none of: add KIND BASE LEN, allocate KIND BASE LEN, top KIND ALIGN LEN, free BASE LEN, remove BASE LEN; KIND is system, mmio, reserved or nonexistent"
    }
}

// What a file is that is of another kind than its tool asks for.
fn tell_other_kind(
    rt: &HostRuntime,
    words: &[String],
    status: ToolStatus,
    heard: &Heard,
) -> Option<()> {
    let verb = word_at(words, 0);
    let first = word_at(words, 1);
    match status {
        ToolStatus::ImageRefused if verb == "text" => {
            PROGRAM.tell_kind(rt, first, heard, Some(FileKind::Image))
        }
        ToolStatus::No if verb == "check" || verb == "explain" => {
            PROGRAM.tell_kind(rt, word_at(words, 2), heard, Some(FileKind::Trace))
        }
        ToolStatus::TextRefused if verb == "volume" => {
            PROGRAM.tell_kind(rt, first, heard, Some(FileKind::VolumeText))
        }
        ToolStatus::TextRefused if verb == "dis" => {
            PROGRAM.tell_kind(rt, word_at(words, 2), heard, None)
        }
        ToolStatus::HobsRefused => PROGRAM.tell_kind(rt, first, heard, None),
        _ => None,
    }
}

// Reports on a status that names a place of a file, if the files and the text were kept.
fn tell_fault(rt: &HostRuntime, words: &[String], status: ToolStatus, heard: &Heard) -> Option<()> {
    let first = word_at(words, 1);
    if tell_other_kind(rt, words, status, heard).is_some() {
        return Some(());
    }
    match status {
        ToolStatus::PlanRefused => PROGRAM.tell_plan(rt, first, heard),
        ToolStatus::ImageRefused if word_at(words, 0) == "text" => PROGRAM.tell_volume(
            rt, first, heard,
        ),
        ToolStatus::ImageRefused => PROGRAM.tell_image(rt, first, heard),
        ToolStatus::No if is_in_turns(words) => None,
        ToolStatus::No if word_at(words, 0) == "follow" => tell_start(rt, word_at(words, 2), heard),
        ToolStatus::OrderRefused => tell_line(rt, word_at(words, 2), heard, LINE_FORMS),
        ToolStatus::No => tell_trace(rt, word_at(words, 2), heard),
        ToolStatus::HobsRefused => tell_place(rt, first, heard, true),
        ToolStatus::CommandRefused => {
            let name = if word_at(words, 0) == "mp" {
                first
            } else {
                word_at(words, 2)
            };
            tell_line(rt, name, heard, command_words(words))
        }
        ToolStatus::TextRefused => tell_text(rt, words, heard),
        _ => None,
    }
}

// What a status means, whatever the files.
fn meaning_of(words: &[String], status: ToolStatus) -> &'static str {
    let verb = word_at(words, 0);
    if verb == "follow" || verb == "passes" {
        if let Some(meaning) = boot_words(status) {
            return meaning;
        }
    }
    match status {
        ToolStatus::Twins => {
            "the volume above has two modules of one name; give one of them another, since a start line names a module by volume and name"
        }
        ToolStatus::NoHandoff => {
            "PEI ended without a hand-off, so there is no HOB list to print; boot it with piboot to see why"
        }
        ToolStatus::Spent | ToolStatus::Deep => {
            "PEI was given up before the hand-off, since its fuel was spent or its frames are nested too deep"
        }
        ToolStatus::No if is_in_turns(words) => {
            "it is the turn of the driver in the last line but one, which may not start there; the last line has the GUIDs that are not installed"
        }
        ToolStatus::Memory => "memory was wanting",
        _ => "it is refused at the place above; docs/TOOLS.md has the causes",
    }
}

// Reports on a run that succeeded: how the expressions of a volume's text are read. If the text was not kept, nothing is reported.
fn tell_done(rt: &HostRuntime, words: &[String], heard: &Heard) {
    if word_at(words, 0) == "volume" {
        let _ = tell_readings(rt, word_at(words, 1), heard);
    }
}

/// The file of which the report on a run shows lines.
pub(crate) fn shown_file(words: &[String], status: ToolStatus) -> Option<&str> {
    let verb = word_at(words, 0);
    let place = match status {
        ToolStatus::Done if verb == "volume" => 1,
        ToolStatus::No if is_in_turns(words) => return None,
        ToolStatus::ImageRefused if verb == "text" => 1,
        ToolStatus::HobsRefused => 1,
        ToolStatus::No | ToolStatus::OrderRefused => 2,
        ToolStatus::CommandRefused | ToolStatus::TextRefused if verb == "mp" || verb == "volume" =>
            1,
        ToolStatus::CommandRefused | ToolStatus::TextRefused => 2,
        _ => return None,
    };
    Some(word_at(words, place))
}

/// Tells what came of a run: a line for each status but Done, and for Done how expressions are read that mix AND and OR.
pub(crate) fn tell(rt: &HostRuntime, words: &[String], status: ToolStatus, heard: &Heard) {
    match status {
        ToolStatus::Done => tell_done(rt, words, heard),
        ToolStatus::Usage => tell_usage(rt, words),
        ToolStatus::FileFault => PROGRAM.tell_file(rt, &heard.refused, false),
        ToolStatus::TooLong => PROGRAM.tell_file(rt, &heard.refused, true),
        ToolStatus::SinkFault => PROGRAM.tell_output(rt),
        _ => {
            if tell_fault(rt, words, status, heard).is_none() {
                PROGRAM.put(rt, word_at(words, 1), meaning_of(words, status));
            }
        }
    }
}
