// The fixed words of what is printed.
ghost use Rattle.std.specs.Prelude.{◌≡◌};
ghost use Rattle.gcd_map.specs.MapText.{kind_text, state_text, refusal_text, cause_text, name_text};

use crate::command::Command;
use crate::fault::GcdCause;
use crate::state::GcdKind;
use crate::word::GcdWord;

// A kind.
#[tactic(auto, unfolding(crate::specs::MapText::kind_text))]
pub(crate) fn kind_word(kind: GcdKind) -> &'static [u8]
    ensures { result.now ≡ kind_text kind }
{
    match kind {
        GcdKind::NonExistent => b"nonexistent",
        GcdKind::Reserved => b"reserved",
        GcdKind::System => b"system",
        GcdKind::Mmio => b"mmio",
    }
}

// Whether memory is allocated.
#[tactic(auto, unfolding(crate::specs::MapText::state_text))]
pub(crate) fn state_word(allocated: bool) -> &'static [u8]
    ensures { result.now ≡ state_text allocated }
{
    if allocated { b"allocated" } else { b"free" }
}

// A refusal.
#[tactic(auto, unfolding(crate::specs::MapText::refusal_text))]
pub(crate) fn refusal_word(word: GcdWord) -> &'static [u8]
    ensures { result.now ≡ refusal_text word }
{
    match word {
        GcdWord::InvalidParameter => b"InvalidParameter",
        GcdWord::Unsupported => b"Unsupported",
        GcdWord::AccessDenied => b"AccessDenied",
        GcdWord::NotFound => b"NotFound",
        GcdWord::Memory => b"Memory",
    }
}

// A cause of a HOB list.
#[tactic(auto, unfolding(crate::specs::MapText::cause_text))]
pub(crate) fn cause_word(cause: GcdCause) -> &'static [u8]
    ensures { result.now ≡ cause_text cause }
{
    match cause {
        GcdCause::Short => b"Short",
        GcdCause::Length => b"Length",
        GcdCause::Form => b"Form",
        GcdCause::NoEnd => b"NoEnd",
        GcdCause::Memory => b"Memory",
        GcdCause::NoCpu => b"NoCpu",
        GcdCause::Bits => b"Bits",
        GcdCause::Range => b"Range",
        GcdCause::Overlap => b"Overlap",
        GcdCause::Outside => b"Outside",
    }
}

// The name of a command.
#[tactic(auto, unfolding(crate::specs::MapText::name_text))]
pub(crate) fn name_word(command: Command) -> &'static [u8]
    ensures { result.now ≡ name_text command }
{
    match command {
        Command::Add { .. } => b"add",
        Command::Allocate { .. } => b"allocate",
        Command::Top { .. } => b"top",
        Command::Free { .. } => b"free",
        Command::Remove { .. } => b"remove",
    }
}
