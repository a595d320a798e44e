// The lines of services.
ghost use Rattle.std.specs.Prelude.{◌≡◌, ℕ, true, IfSome, IsNone, Decides};
ghost use Rattle.pi_base.specs.{declared.word.Word.TheVariants.Success, declared.word.Word.Word};
ghost use Rattle.boot_model.specs.{declared.line.CallName.TheVariants.Peek, declared.line.CallName.CallName};
ghost use Rattle.boot_model.specs.declared.line.Line.TheVariants as L;
ghost use Rattle.boot_model.specs.declared.line.Extra.TheVariants as E;
ghost use Rattle.arrayvec.specs.declared.array_vec.ArrayVec.{ArrayVec};
ghost use Rattle.trace_reader.specs.Readable.{IsLineOf, shows_nothing, shows_number};
ghost use Rattle.trace_reader.specs.Lacking.{LacksLinesOfCall};

use crate::field::fields_after;
use crate::fixed_word::Fixed;
use crate::number::Hexadecimal;
use arrayvec::ArrayVec;
use boot_model::{CallName, Extra, Line};
use boot_trace::keywords::CALL;
use pi_base::Word;

// Whether an action may show nothing on success.
fn shows_nothing(name: CallName) -> bool
    ensures { result ≡ shows_nothing name }
{
    !matches!(
        name,
        CallName::Pool
            | CallName::Peek
            | CallName::Desc
            | CallName::Locate
            | CallName::Hob
            | CallName::Pages
    )
}

// Whether an action may show a number.
fn shows_number(name: CallName) -> bool
    ensures { result ≡ shows_number name }
{
    matches!(
        name,
        CallName::Pool
            | CallName::Desc
            | CallName::Install
            | CallName::Locate
            | CallName::Hob
            | CallName::Pages
            | CallName::BootMode
    )
}

// Whether an action may show nothing after a status.
fn may_show_nothing(name: CallName, status: Word) -> bool
    ensures { Decides result (status ≡ Success → shows_nothing name ≡ true) }
{
    status != Word::Success || shows_nothing(name)
}

// Whether an action may show a number after a status.
fn may_show_number(name: CallName, status: Word) -> bool
    ensures { Decides result ((status ≡ Success) × (shows_number name ≡ true)) }
{
    status == Word::Success && shows_number(name)
}

// Whether an action may show bytes after a status.
fn may_show_bytes(name: CallName, status: Word) -> bool
    ensures { Decides result ((status ≡ Success) × (name ≡ Peek)) }
{
    status == Word::Success && name == CallName::Peek
}

// The line of a service that shows nothing.
#[tactic(auto, unfolding(boot_model::specs::Text::keyword))]
fn silent_call(line: &[u8]) -> Option<Line>
    ensures read { IfSome result (IsLineOf line.now) }
    ensures none { IsNone result → (name : CallName) (status : Word) → IsLineOf line.now (L.Call name status E.Nothing) → ⊥ }
{
    let Some((Fixed { value: name }, (Fixed { value: status }, ()))) = fields_after(line, CALL)
    else {
        return None;
    };
    if may_show_nothing(name, status) {
        let extra = Extra::Nothing;
        Some(Line::Call {
            name,
            status,
            extra,
        })
    } else {
        None
    }
}

// The line of a service that shows a number.
#[tactic(auto, unfolding(boot_model::specs::Text::keyword))]
fn number_call(line: &[u8]) -> Option<Line>
    ensures read { IfSome result (IsLineOf line.now) }
    ensures none { IsNone result → (name : CallName) (status : Word) (n : ℕ) → IsLineOf line.now (L.Call name status (E.Number n)) → ⊥ }
{
    let Some((Fixed { value: name }, (Fixed { value: status }, (Hexadecimal(number), ())))) =
        fields_after(line, CALL) else {
        return None;
    };
    if may_show_number(name, status) {
        let extra = Extra::Number(number);
        Some(Line::Call {
            name,
            status,
            extra,
        })
    } else {
        None
    }
}

// The line of a service that shows bytes.
#[tactic(auto, unfolding(boot_model::specs::Text::keyword))]
fn bytes_call(line: &[u8]) -> Option<Line>
    ensures read { IfSome result (IsLineOf line.now) }
    ensures none { IsNone result → (name : CallName) (status : Word) (bytes : ArrayVec ℕ 64 (Unit {0}))
        → IsLineOf line.now (L.Call name status (E.Bytes bytes)) → ⊥ }
{
    let Some((Fixed { value: name }, (Fixed { value: status }, (bytes, ())))) = fields_after(
        line, CALL,
    ) else {
        return None;
    };
    if may_show_bytes(name, status) {
        let extra = Extra::Bytes(bytes);
        Some(Line::Call {
            name,
            status,
            extra,
        })
    } else {
        None
    }
}

// The line of a service.
pub(crate) fn call_line(line: &[u8]) -> Option<Line>
    ensures read { IfSome result (IsLineOf line.now) }
    ensures none { IsNone result → LacksLinesOfCall line.now }
{
    if let Some(call) = silent_call(line) {
        return Some(call);
    }
    if let Some(call) = number_call(line) {
        return Some(call);
    }
    bytes_call(line)
}
