// The lines of the starts.
ghost use Rattle.std.specs.Prelude.{◌≡◌, ◌++◌, flat_map, OnOk};
ghost use Rattle.explain_text.specs.StartLines.{giver_text, needed_line, start_line, start_lines};

use crate::catalog::{phase_word, put_line};
use crate::keyword::{Keyword, word_of};
use crate::reasons::{Begun, Giver, Need};
use arrayvec::ArrayVec;
use boot_trace::{decimal_word, licence_word};
use pi_base::{DECIMAL_LEN, OutOfMemory, Seq};

/// The word of who has a GUID installed.
#[tactic(auto, unfolding(crate::specs::Words::word_of))]
pub(crate) fn giver_word(giver: Giver) -> ArrayVec<u8, DECIMAL_LEN>
    ensures { result.items ≡ giver_text giver }
{
    match giver {
        Giver::Core => {
            let mut word = ArrayVec::new();
            word.try_extend_from_slice(b"core").unwrap();
            word
        }
        Giver::Module(number) => decimal_word(u64::from(number)),
        Giver::Absent => {
            let mut word = ArrayVec::new();
            word.try_extend_from_slice(b"-").unwrap();
            word
        }
    }
}

// The line of what a start needed.
fn put_needed(out: &mut Seq<u8>, number: u32, need: &Need) -> Result<(), OutOfMemory>
    ensures { OnOk result (out.new ≡ out.old ++ needed_line number need.now) }
{
    put_line(
        out,
        word_of(Keyword::Needed),
        &[
            decimal_word(u64::from(number)).as_slice(),
            &need.guid.to_text(),
            giver_word(need.giver).as_slice(),
        ],
    )
}

// The line of a start.
fn put_start(out: &mut Seq<u8>, start: &Begun) -> Result<(), OutOfMemory>
    ensures { OnOk result (out.new ≡ out.old ++ start_line start.now) }
{
    let number = decimal_word(u64::from(start.number));
    let phase = phase_word(start.phase);
    let licence = licence_word(start.licence);
    match start.beside {
        None => put_line(
            out,
            word_of(Keyword::Start),
            &[number.as_slice(), phase, licence],
        ),
        Some(beside) => put_line(
            out,
            word_of(Keyword::Start),
            &[
                number.as_slice(),
                phase,
                licence,
                decimal_word(u64::from(beside)).as_slice(),
            ],
        ),
    }
}

// The lines of what it needed.
fn put_needs(out: &mut Seq<u8>, number: u32, needs: &[Need]) -> Result<(), OutOfMemory>
    ensures { OnOk result (out.new ≡ out.old ++ flat_map (needed_line number) needs.now) }
{
    'needs: for need in needs {
        put_needed(out, number, need)?;
    }
    Ok(())
}

// A start, and what it needed.
fn put_begun(out: &mut Seq<u8>, start: &Begun) -> Result<(), OutOfMemory>
    ensures { OnOk result (out.new ≡ out.old ++ start_lines start.now) }
{
    put_start(out, start)?;
    put_needs(out, start.number, start.needs.as_slice())
}

/// The lines of starts.
pub(crate) fn put_starts(out: &mut Seq<u8>, begun: &[Begun]) -> Result<(), OutOfMemory>
    ensures { OnOk result (out.new ≡ out.old ++ flat_map start_lines begun.now) }
{
    'starts: for start in begun {
        put_begun(out, start)?;
    }
    Ok(())
}
