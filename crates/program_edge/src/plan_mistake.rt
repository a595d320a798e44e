// The mistake of a plan, by the line and the cause of its refusal.
ghost use Rattle.std.specs.Prelude.{◌≡◌, ◌≢◌, [], false, Some, None, IfSome, IsNone, MatchOption, slice_index};
ghost use Rattle.line_words.specs.Words.{words};
ghost use Rattle.program_edge.specs.Mistake.{IsFirst, IsMistake, keyword};
ghost use Rattle.program_edge.specs.PlanMistake.{IsLine, IsMistakeIn, IsMistakeOf, IsNeeded, Lacks, line_of};

use crate::kind::Kind;
use crate::limit_mistake::limit_mistake;
use crate::line_mistake::{number_mistake, word_mistake};
use crate::mistake::Mistake;
use crate::rule::Rule;
use crate::shape::shape_of;
use boot_plan::{PlanCause, PlanFault};
use line_words::first_line;

/// The line of a text with a number, from 1. None if the text has no such line.
pub fn line_at(text: &[u8], number: u32) -> Option<&[u8]>
    ensures line { IfSome result (λ line. IsLine text.now line.now) }
    ensures numbered { MatchOption result (line_of text.now number ≡ None) (λ line. line_of text.now number ≡ Some line.now) }
{
    if number == 0 {
        return None;
    }
    let mut rest = text;
    let mut ahead = number - 1;
    'lines: while !rest.is_empty() {
        let (line, after) = first_line(rest);
        if ahead == 0 {
            return Some(line);
        }
        ahead -= 1;
        rest = after;
    }
    None
}

// The first word of a line that no space begins.
fn front_of(line: &[u8]) -> Option<&[u8]>
    ensures first { IfSome result (λ word. IsFirst line.now word.now) }
    ensures none { IsNone result → slice_index line.now 0 ≢ 32 → words line.now ≡ [] }
{
    match line {
        [b' ', ..] => None,
        _ => shape_of(line).first(),
    }
}

// Whether a line of a kind is in a text.
#[tactic(auto, using(crate::proofs::Lacking::lacks_on))]
fn has_line(text: &[u8], kind: Kind) -> bool
    ensures { result ≡ false → Lacks text.now (keyword kind) }
{
    let word = kind.keyword();
    let mut rest = text;
    'lines: while !rest.is_empty() {
        let (line, after) = first_line(rest);
        if let Some(first) = front_of(line) {
            if first == word {
                return true;
            }
        }
        rest = after;
    }
    false
}

// That a kind of line is needed.
fn needed(kind: Kind) -> Mistake<'static>
    ensures needed { IsNeeded result }
    ensures word { result.word.now ≡ keyword kind }
{
    Mistake {
        word: kind.keyword(),
        rule: Rule::Needed(kind),
    }
}

// The first required kind of line that is missing in a text.
fn lacking(text: &[u8]) -> Option<Mistake<'static>>
    ensures needed { IfSome result IsNeeded }
    ensures lacks { IfSome result (λ mistake. Lacks text.now mistake.word.now) }
{
    if !has_line(text, Kind::Temp) {
        Some(needed(Kind::Temp))
    } else if !has_line(text, Kind::Ram) {
        Some(needed(Kind::Ram))
    } else if !has_line(text, Kind::Volume) {
        Some(needed(Kind::Volume))
    } else {
        None
    }
}

// The mistake of a line by its cause.
fn mistake_of(line: &[u8], cause: PlanCause) -> Option<Mistake<'_>>
    ensures { IfSome result (IsMistake line.now) }
{
    let rule = match cause {
        PlanCause::Word => return word_mistake(line),
        PlanCause::Number => return number_mistake(line),
        PlanCause::Limit => return limit_mistake(line),
        PlanCause::Twice => Rule::Once,
        PlanCause::Overlap => Rule::Apart,
        PlanCause::Room => Rule::HeapRoom,
        PlanCause::Missing | PlanCause::Memory => return None,
    };
    let word = front_of(line)?;
    Some(Mistake { word, rule })
}

/// The word of a refused plan's text that is at fault, and the rule that it breaks. None if the text has no such mistake.
pub fn mistake_in(text: &[u8], fault: PlanFault) -> Option<Mistake<'_>>
    ensures told { IfSome result (IsMistakeIn text.now) }
    // It is in the line that is refused, or names a kind of line that is missing.
    ensures refused { IfSome result (IsMistakeOf text.now fault) }
{
    if fault.cause == PlanCause::Missing {
        return lacking(text);
    }
    let line = line_at(text, fault.line)?;
    mistake_of(line, fault.cause)
}
