// The fixed words of what is printed.
ghost use Rattle.std.specs.Prelude.{◌≡◌};
ghost use Rattle.mp_core.specs.OutcomeText.{status_text, record_keyword, refused_command};

use crate::reply::MpWord;

// A status.
#[tactic(auto, unfolding(crate::specs::OutcomeText::status_text))]
pub(crate) fn status_text(status: MpWord) -> &'static [u8]
    ensures { result.now ≡ status_text status }
{
    match status {
        MpWord::Success => b"Success",
        MpWord::DeviceError => b"DeviceError",
        MpWord::NotStarted => b"NotStarted",
        MpWord::NotReady => b"NotReady",
        MpWord::NotFound => b"NotFound",
        MpWord::InvalidParameter => b"InvalidParameter",
        MpWord::Unsupported => b"Unsupported",
    }
}

// The first word of the line of a record.
#[tactic(auto, unfolding(crate::specs::OutcomeText::record_keyword))]
pub(crate) fn record_keyword() -> &'static [u8]
    ensures { result.now ≡ record_keyword }
{
    b"record"
}

// The first words of the line of a refusal.
#[tactic(auto, unfolding(crate::specs::OutcomeText::refused_command))]
pub(crate) fn refused_command() -> &'static [u8]
    ensures { result.now ≡ refused_command }
{
    b"refused command"
}
