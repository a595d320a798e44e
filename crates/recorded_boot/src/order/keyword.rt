// The first words of lines.
ghost use Rattle.std.specs.Prelude.{◌≡◌};
ghost use Rattle.recorded_boot.specs.LineText.{keyword_text, keyword_named};

/// The word with which a line begins.
#[derive(Clone, Copy)]
pub enum Keyword {
    /// A start in PEI.
    Pei,
    /// A start in DXE.
    Dxe,
    /// The boot is followed no further.
    Stop,
}

// What a keyword is written as.
#[tactic(auto, unfolding(crate::specs::LineText::keyword_text))]
fn keyword_text(keyword: Keyword) -> &'static [u8]
    ensures { result.now ≡ keyword_text keyword }
{
    match keyword {
        Keyword::Pei => b"pei",
        Keyword::Dxe => b"dxe",
        Keyword::Stop => b"stop",
    }
}

// The keyword that a word is.
pub(crate) fn keyword_named(word: &[u8]) -> Option<Keyword>
    ensures { result ≡ keyword_named word.now }
{
    if word == keyword_text(Keyword::Pei) {
        Some(Keyword::Pei)
    } else if word == keyword_text(Keyword::Dxe) {
        Some(Keyword::Dxe)
    } else if word == keyword_text(Keyword::Stop) {
        Some(Keyword::Stop)
    } else {
        None
    }
}
