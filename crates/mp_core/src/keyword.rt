// The first words of events' lines.
ghost use Rattle.std.specs.Prelude.{◌≡◌};
ghost use Rattle.mp_core.specs.{LineText.keyword_text, LineText.keyword_named, OutcomeText.keyword_of};

use crate::event::MpEvent;

/// The word with which an event's line begins.
#[derive(Clone, Copy)]
pub enum Keyword {
    All,
    This,
    Enable,
    Disable,
    Switch,
    Who,
    Turn,
}

// What a keyword is written as.
#[tactic(auto, unfolding(crate::specs::LineText::keyword_text))]
pub(crate) fn keyword_text(keyword: Keyword) -> &'static [u8]
    ensures { result.now ≡ keyword_text keyword }
{
    match keyword {
        Keyword::All => b"all",
        Keyword::This => b"this",
        Keyword::Enable => b"enable",
        Keyword::Disable => b"disable",
        Keyword::Switch => b"switch",
        Keyword::Who => b"who",
        Keyword::Turn => b"turn",
    }
}

const KEYWORDS: [Keyword; 7] = [
    Keyword::All,
    Keyword::This,
    Keyword::Enable,
    Keyword::Disable,
    Keyword::Switch,
    Keyword::Who,
    Keyword::Turn,
];

// The keyword that a word is.
pub(crate) fn keyword_named(word: &[u8]) -> Option<Keyword>
    ensures { result ≡ keyword_named word.now }
{
    let mut rest = KEYWORDS.as_slice();
    'keywords: while let [keyword, after @ ..] = rest {
        if word == keyword_text(*keyword) {
            return Some(*keyword);
        }
        rest = after;
    }
    None
}

// The keyword of an event's line.
pub(crate) fn keyword_of(event: &MpEvent) -> Keyword
    ensures { result ≡ keyword_of event.now }
{
    match event {
        MpEvent::All { .. } => Keyword::All,
        MpEvent::This { .. } => Keyword::This,
        MpEvent::Enable { enabled, .. } => {
            if *enabled {
                Keyword::Enable
            } else {
                Keyword::Disable
            }
        }
        MpEvent::Switch { .. } => Keyword::Switch,
        MpEvent::Who { .. } => Keyword::Who,
        MpEvent::Turn { .. } => Keyword::Turn,
    }
}
