// The statuses that boot services answer.
ghost use Rattle.std.specs.Prelude.{◌≡◌, ◌<◌, ◌↔◌, IfSome, IsNone};
ghost use Rattle.pi_base.specs.{Word.word_number, WordText.word_text};

/// The status that a boot service or a module returns: the `EFI_STATUS` values that occur here (UEFI's appendix of status codes; `NotAvailableYet` is PI 1.8's,
/// volume 1). In a script a word is written by its number, from 0 in this order (own).
#[derive(Clone, Copy, PartialEq, Eq)]
pub enum Word {
    /// The service did what it was asked to do.
    Success,
    /// An argument is of the wrong kind or out of range.
    InvalidParameter,
    /// What was asked for is not there.
    NotFound,
    /// The heap has no room.
    OutOfResources,
    /// The service needs permanent memory.
    NotAvailableYet,
    /// It was done before.
    AlreadyStarted,
    /// No service returns it; a module may.
    AccessDenied,
}

impl Word {
    /// The word's number in a script.
    pub fn number(self) -> u8
        ensures { result ≡ word_number self }
    {
        self as u8
    }

    /// Its name as it is printed and read.
    #[tactic(auto, unfolding(crate::specs::WordText::word_text))]
    pub fn text(self) -> &'static [u8]
        ensures { result.now ≡ word_text self }
    {
        match self {
            Word::Success => b"Success",
            Word::InvalidParameter => b"InvalidParameter",
            Word::NotFound => b"NotFound",
            Word::OutOfResources => b"OutOfResources",
            Word::NotAvailableYet => b"NotAvailableYet",
            Word::AlreadyStarted => b"AlreadyStarted",
            Word::AccessDenied => b"AccessDenied",
        }
    }

    /// The word that has this number in a script.
    pub fn from_number(number: u8) -> Option<Word>
        ensures found { IfSome result (λ word. word_number word ≡ number) }
        ensures none { IsNone result ↔ (6 < number) }
    {
        match number {
            0 => Some(Word::Success),
            1 => Some(Word::InvalidParameter),
            2 => Some(Word::NotFound),
            3 => Some(Word::OutOfResources),
            4 => Some(Word::NotAvailableYet),
            5 => Some(Word::AlreadyStarted),
            6 => Some(Word::AccessDenied),
            _ => None,
        }
    }
}
