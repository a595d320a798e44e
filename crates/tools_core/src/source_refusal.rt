// The refusal of a volume's text.
ghost use Rattle.std.specs.Prelude.{◌≡◌};
ghost use Rattle.boot_io.specs.Sink.{Puts, SinkFaultsAfter};
ghost use Rattle.tools_core.specs.SourceRefusal.{action_text, expression_text, blocks_text, source_text, need_of, source_line};

use crate::print::refused_text;
use boot_io::{Sink, SinkFault, put_line};
use boot_trace::decimal_word;
use source_words::depex::ExpressionFault;
use source_words::script::{LineFault, ScriptCause};
use volume_text::{Cause, Fault};

// What is wrong with the line of an action.
#[tactic(auto, unfolding(crate::specs::SourceRefusal::action_text))]
fn action_word(fault: LineFault) -> &'static [u8]
    ensures { result.now ≡ action_text fault }
{
    match fault {
        LineFault::Missing => b"Missing",
        LineFault::Extra => b"Extra",
        LineFault::UnknownAction => b"UnknownAction",
        LineFault::OtherPhase => b"OtherPhase",
        LineFault::Register => b"Register",
        LineFault::Number => b"Number",
        LineFault::Range => b"Range",
        LineFault::Guid => b"Guid",
        LineFault::Status => b"Status",
        LineFault::Word => b"Word",
        LineFault::Bytes => b"Bytes",
        LineFault::Log => b"Log",
        LineFault::Hob => b"Hob",
    }
}

// What is wrong with the words of an expression.
#[tactic(auto, unfolding(crate::specs::SourceRefusal::expression_text))]
fn expression_word(fault: ExpressionFault) -> &'static [u8]
    ensures { result.now ≡ expression_text fault }
{
    match fault {
        ExpressionFault::NoOperand => b"NoOperand",
        ExpressionFault::NoGuid => b"NoGuid",
        ExpressionFault::Extra => b"Extra",
        ExpressionFault::Bracket => b"Bracket",
        ExpressionFault::OtherPhase => b"OtherPhase",
        ExpressionFault::TooLong => b"TooLong",
        ExpressionFault::Memory => b"Memory",
    }
}

// What is wrong with the blocks of a script.
#[tactic(auto, unfolding(crate::specs::SourceRefusal::blocks_text))]
fn blocks_word(cause: ScriptCause) -> &'static [u8]
    ensures { result.now ≡ blocks_text cause }
{
    match cause {
        ScriptCause::NoBlock => b"NoBlock",
        ScriptCause::NoRet => b"NoRet",
        ScriptCause::Jump => b"Jump",
        ScriptCause::NoSuchBlock => b"NoSuchBlock",
        ScriptCause::Full => b"Full",
    }
}

// The word of a cause.
#[tactic(auto, unfolding(crate::specs::SourceRefusal::source_text))]
fn source_word(cause: Cause) -> &'static [u8]
    ensures { result.now ≡ source_text cause }
{
    match cause {
        Cause::UnknownLine => b"UnknownLine",
        Cause::Missing => b"Missing",
        Cause::Extra => b"Extra",
        Cause::Word => b"Word",
        Cause::Number => b"Number",
        Cause::Range => b"Range",
        Cause::Guid => b"Guid",
        Cause::Bytes => b"Bytes",
        Cause::FileType => b"FileType",
        Cause::SectionType => b"SectionType",
        Cause::Action(fault) => action_word(fault),
        Cause::Expression(fault) => expression_word(fault),
        Cause::Script(cause) => blocks_word(cause),
        Cause::ScriptTooLong => b"ScriptTooLong",
        Cause::NoVolume => b"NoVolume",
        Cause::NoFile => b"NoFile",
        Cause::NoScript => b"NoScript",
        Cause::InScript => b"InScript",
        Cause::NoPart => b"NoPart",
        Cause::TwoDepex => b"TwoDepex",
        Cause::TwoScripts => b"TwoScripts",
        Cause::TwoBodies => b"TwoBodies",
        Cause::TwoNames => b"TwoNames",
        Cause::Nesting => b"Nesting",
        Cause::BehindEnd => b"BehindEnd",
        Cause::NoEnd => b"NoEnd",
        Cause::TooMany => b"TooMany",
        Cause::Size => b"Size",
        Cause::NoRoom { .. } => b"NoRoom",
    }
}

// What a volume would need that has too few bytes.
#[tactic(auto, unfolding(crate::specs::SourceRefusal::need_of))]
fn need_of(cause: Cause) -> Option<u64>
    ensures { result ≡ need_of cause }
{
    match cause {
        Cause::NoRoom { need } => Some(need),
        _ => None,
    }
}

/// Writes the refusal of a volume's text: the line, the cause, and what the cause needs.
pub(crate) fn put_source<S: Sink>(sink: &mut S, fault: Fault) -> Result<(), SinkFault>
    ensures text { Puts result (S.text sink.old) (S.text sink.new) (source_line fault) }
    ensures cause { SinkFaultsAfter result (S.faults sink.old) (S.faults sink.new) }
{
    let line = decimal_word(fault.line);
    let word = source_word(fault.cause);
    match need_of(fault.cause) {
        Some(need) => {
            let need = decimal_word(need);
            put_line(
                sink,
                refused_text(),
                &[line.as_slice(), word, need.as_slice()],
            )
        }
        None => put_line(sink, refused_text(), &[line.as_slice(), word]),
    }
}
