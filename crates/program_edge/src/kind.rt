// The kinds of a plan's lines.
ghost use Rattle.std.specs.Prelude.{◌≡◌, ◌≢◌, IfSome, IfNone};
ghost use Rattle.program_edge.specs.{Mistake.keyword, Mistake.word_count, declared.kind.Kind.Kind};

/// A kind of a plan's lines, by its first word.
#[derive(Clone, Copy)]
pub enum Kind {
    Temp,
    Ram,
    Volume,
    Fuel,
    Pages,
}

// The kind of line that a word begins.
#[tactic(auto, unfolding(crate::specs::Mistake::keyword))]
pub(crate) fn kind_of(word: &[u8]) -> Option<Kind>
    ensures found { IfSome result (λ kind. word.now ≡ keyword kind) }
    ensures none { IfNone result ((kind : Kind) → word.now ≢ keyword kind) }
{
    if word == b"temp".as_slice() {
        Some(Kind::Temp)
    } else if word == b"ram".as_slice() {
        Some(Kind::Ram)
    } else if word == b"volume".as_slice() {
        Some(Kind::Volume)
    } else if word == b"fuel".as_slice() {
        Some(Kind::Fuel)
    } else if word == b"pages".as_slice() {
        Some(Kind::Pages)
    } else {
        None
    }
}

impl Kind {
    /// The first word of such a line.
    #[tactic(auto, unfolding(crate::specs::Mistake::keyword))]
    pub fn keyword(self) -> &'static [u8]
        ensures { result.now ≡ keyword self }
    {
        match self {
            Kind::Temp => b"temp",
            Kind::Ram => b"ram",
            Kind::Volume => b"volume",
            Kind::Fuel => b"fuel",
            Kind::Pages => b"pages",
        }
    }

    // How many words such a line has.
    pub(crate) fn word_count(self) -> usize
        ensures { result ≡ word_count self }
    {
        match self {
            Kind::Temp | Kind::Ram | Kind::Volume => 3,
            Kind::Fuel | Kind::Pages => 2,
        }
    }
}
