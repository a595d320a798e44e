// The fixed words of the lines.
ghost use Rattle.std.specs.Prelude.{◌≡◌};
ghost use Rattle.explain_text.specs.Words.{word_of};

/// A fixed word.
#[derive(Clone, Copy)]
pub(crate) enum Keyword {
    Start,
    Needed,
    Waits,
    Lacks,
    Has,
    Would,
    Unless,
    Moved,
    Heap,
    Fuel,
    Result,
    Core,
    Started,
    More,
    End,
    Scheduled,
    Unreported,
    Undiscovered,
    Module,
    Expr,
    Gives,
    Any,
    Dash,
}

/// Its text.
#[tactic(auto, unfolding(crate::specs::Words::word_of))]
pub(crate) fn word_of(word: Keyword) -> &'static [u8]
    ensures { result.now ≡ word_of word }
{
    match word {
        Keyword::Start => b"start",
        Keyword::Needed => b"needed",
        Keyword::Waits => b"waits",
        Keyword::Lacks => b"lacks",
        Keyword::Has => b"has",
        Keyword::Would => b"would",
        Keyword::Unless => b"unless",
        Keyword::Moved => b"moved",
        Keyword::Heap => b"heap",
        Keyword::Fuel => b"fuel",
        Keyword::Result => b"result",
        Keyword::Core => b"core",
        Keyword::Started => b"started",
        Keyword::More => b"more",
        Keyword::End => b"end",
        Keyword::Scheduled => b"scheduled",
        Keyword::Unreported => b"unreported",
        Keyword::Undiscovered => b"undiscovered",
        Keyword::Module => b"module",
        Keyword::Expr => b"expr",
        Keyword::Gives => b"gives",
        Keyword::Any => b"any",
        Keyword::Dash => b"-",
    }
}
