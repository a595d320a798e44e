// What a line says.
ghost use Rattle.std.specs.Prelude.{Ok};
ghost use Rattle.source_words.specs.Words.{words};
ghost use Rattle.volume_text.specs.Reading.{Gives, Meets};
ghost use Rattle.volume_text.specs.Line.{volume_at, name_at, file_at, pad_at, script_at, guids_at, raw_at, section_at, ui_at, body_at, alone, Reads, ReadsBy, ReadsDepex, IsBody};

use crate::bytes::{bytes, guids};
use crate::fault::{Cause, Stop};
use crate::keyword::{Keyword, keyword_of};
use crate::statement::Statement;
use crate::user_interface::ui_bytes;
use crate::word::{
    attributes, chosen, file_type, guid, header, length, none_left, pad_length, phase, place,
    section_type, size, system, ui_word, word,
};
use depex_code::write_depex;
use fv_volume::build::{VolumeForm, VolumeName};
use fv_volume::sections::section_type::{RAW, USER_INTERFACE};
use pi_base::{Phase, Seq};
use source_words::depex::{ExpressionFault, read_expression};
use std::alloc::Global;

// `volume LENGTH`, and behind it `ffs2` or `ffs3`, `header NUMBER` and `attributes NUMBER`, all behind the first word, as in all that follow.
#[tactic(auto, unfolding(crate::specs::Line::volume_at))]
fn volume(text: &[u8]) -> Result<Statement, Stop>
    ensures { Gives (λ x. x) result (volume_at (words text.now)) }
{
    let (len, rest) = length(text)?;
    let (file_system, rest) = system(rest)?;
    let (header_len, rest) = header(rest, len)?;
    let attributes = attributes(rest)?;
    let form = VolumeForm {
        file_system,
        attributes,
        header_len,
    };
    Ok(Statement::Volume { form, len })
}

// `name GUID`, and behind it `at NUMBER` and `size NUMBER`.
#[tactic(auto, unfolding(crate::specs::Line::name_at))]
fn name(text: &[u8]) -> Result<Statement, Stop>
    ensures { Gives (λ x. x) result (name_at (words text.now)) }
{
    let (guid, rest) = guid(text)?;
    let (at, rest) = place(rest)?;
    let (size, rest) = size(rest)?;
    none_left(rest)?;
    let name = VolumeName { guid, at, size };
    Ok(Statement::Name { name })
}

// `pad LENGTH`.
#[tactic(auto, unfolding(crate::specs::Line::pad_at))]
fn pad(text: &[u8]) -> Result<Statement, Stop>
    ensures { Gives (λ x. x) result (pad_at (words text.now)) }
{
    let (len, rest) = pad_length(text)?;
    none_left(rest)?;
    Ok(Statement::Pad { len })
}

// `file TYPE GUID`, `file TYPE GUID fixed align NUMBER`.
#[tactic(auto, unfolding(crate::specs::Line::file_at))]
fn file(text: &[u8]) -> Result<Statement, Stop>
    ensures { Gives (λ x. x) result (file_at (words text.now)) }
{
    let (kind, rest) = file_type(text)?;
    let (name, rest) = guid(rest)?;
    let attributes = chosen(rest)?;
    Ok(Statement::File {
        kind,
        name,
        attributes,
    })
}

// The bytes of the expression that words say.
fn expression(alloc: Global, of: Phase, text: &[u8]) -> Result<Seq<u8>, Stop>
    ensures { Meets (IsBody of (words text.now)) result }
{
    match read_expression(alloc, of, text) {
        Ok(expression) => {
            let body = write_depex(alloc, &expression)?;
            Ok(body)
        }
        Err(ExpressionFault::Memory) => Err(Stop::Memory),
        Err(fault) => Err(Stop::Fault(Cause::Expression(fault))),
    }
}

// `depex PHASE EXPRESSION`.
#[tactic(auto, using(crate::proofs::Expressions::depex_stops, crate::proofs::Expressions::depex_there))]
fn depex(alloc: Global, text: &[u8]) -> Result<Statement, Stop>
    ensures { Meets (ReadsDepex (words text.now)) result }
{
    let (of, rest) = phase(text)?;
    let body = expression(alloc, of, rest)?;
    Ok(Statement::Depex { phase: of, body })
}

// `script PHASE`.
#[tactic(auto, unfolding(crate::specs::Line::script_at))]
fn script(text: &[u8]) -> Result<Statement, Stop>
    ensures { Gives (λ x. x) result (script_at (words text.now)) }
{
    let (phase, rest) = phase(text)?;
    none_left(rest)?;
    Ok(Statement::Script { phase })
}

// `guids GUID ..`.
#[tactic(auto, unfolding(crate::specs::Line::guids_at))]
fn guid_section(alloc: Global, text: &[u8]) -> Result<Statement, Stop>
    ensures { Gives (λ x. x) result (guids_at (words text.now)) }
{
    let body = guids(alloc, text)?;
    Ok(Statement::Section { kind: RAW, body })
}

// `raw HEX`.
#[tactic(auto, unfolding(crate::specs::Line::raw_at))]
fn raw_section(alloc: Global, text: &[u8]) -> Result<Statement, Stop>
    ensures { Gives (λ x. x) result (raw_at (words text.now)) }
{
    let body = bytes(alloc, text)?;
    Ok(Statement::Section { kind: RAW, body })
}

// `section TT HEX`.
#[tactic(auto, unfolding(crate::specs::Line::section_at))]
fn section(alloc: Global, text: &[u8]) -> Result<Statement, Stop>
    ensures { Gives (λ x. x) result (section_at (words text.now)) }
{
    let (kind, rest) = section_type(text)?;
    let body = bytes(alloc, rest)?;
    Ok(Statement::Section { kind, body })
}

// `ui NAME`.
#[tactic(auto, unfolding(crate::specs::Line::ui_at))]
fn user_interface(alloc: Global, text: &[u8]) -> Result<Statement, Stop>
    ensures { Gives (λ x. x) result (ui_at (words text.now)) }
{
    let (name, rest) = ui_word(text)?;
    none_left(rest)?;
    let body = ui_bytes(alloc, name)?;
    Ok(Statement::Section {
        kind: USER_INTERFACE,
        body,
    })
}

// `body HEX`.
#[tactic(auto, unfolding(crate::specs::Line::body_at))]
fn body(alloc: Global, text: &[u8]) -> Result<Statement, Stop>
    ensures { Gives (λ x. x) result (body_at (words text.now)) }
{
    let bytes = bytes(alloc, text)?;
    Ok(Statement::Body { bytes })
}

// `block`.
fn block(text: &[u8]) -> Result<Statement, Stop>
    ensures { Gives (λ x. x) result (alone Statement.Block (words text.now)) }
{
    none_left(text)?;
    Ok(Statement::Block)
}

// `end`.
fn end(text: &[u8]) -> Result<Statement, Stop>
    ensures { Gives (λ x. x) result (alone Statement.End (words text.now)) }
{
    none_left(text)?;
    Ok(Statement::End)
}

// A line that begins with no keyword.
fn action(alloc: Global, line: &[u8]) -> Result<Statement, Stop>
    ensures { Gives (λ x. x) result (Ok (Statement.Action line.now)) }
{
    let mut copy = Seq::new(alloc);
    copy.append(line)?;
    Ok(Statement::Action { line: copy })
}

// A line with this keyword and what follows it.
fn by_keyword(
    alloc: Global,
    keyword: Option<Keyword>,
    line: &[u8],
    rest: &[u8],
) -> Result<Statement, Stop>
    ensures { Meets (ReadsBy keyword line.now (words rest.now)) result }
{
    match keyword {
        Some(Keyword::Volume) => volume(rest),
        Some(Keyword::Name) => name(rest),
        Some(Keyword::File) => file(rest),
        Some(Keyword::Pad) => pad(rest),
        Some(Keyword::Depex) => depex(alloc, rest),
        Some(Keyword::Script) => script(rest),
        Some(Keyword::Guids) => guid_section(alloc, rest),
        Some(Keyword::Raw) => raw_section(alloc, rest),
        Some(Keyword::Section) => section(alloc, rest),
        Some(Keyword::Ui) => user_interface(alloc, rest),
        Some(Keyword::Body) => body(alloc, rest),
        Some(Keyword::Block) => block(rest),
        Some(Keyword::End) => end(rest),
        None => action(alloc, line),
    }
}

/// What a line says, or what is wrong with it.
pub(crate) fn read_line(alloc: Global, line: &[u8]) -> Result<Statement, Stop>
    ensures { Meets (Reads line.now) result }
{
    let (word, rest) = word(line)?;
    by_keyword(alloc, keyword_of(word), line, rest)
}
