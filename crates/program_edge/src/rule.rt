// The rules of a plan, each with what it allows.
use crate::kind::Kind;

/// A rule of a plan's text.
#[derive(Clone, Copy)]
pub enum Rule {
    /// Bytes are characters from the space to the tilde.
    Printable,
    /// A line begins with its first word.
    NoFrontSpace,
    /// A line ends with its last word.
    NoBackSpace,
    /// One of five words begins a line.
    Keyword,
    /// A line of a kind has so many words.
    Words(Kind),
    /// A name has at most 255 bytes.
    NameLength,
    /// A number is decimal or hexadecimal digits, below 2^64.
    Number,
    /// Memory is of whole pages.
    WholePages,
    /// Temporary RAM has a least and a greatest size.
    TempSize,
    /// So has RAM.
    RamSize,
    /// A volume's base is a multiple of 8.
    VolumeBase,
    /// Memory and volumes begin at the least address.
    LeastAddress,
    /// Memory ends at the greatest one.
    MostEnd,
    /// A plan has at most 16 volumes.
    MostVolumes,
    /// The limits of the fuel.
    Fuel,
    /// The limits of the page region.
    PageRegion,
    /// A line of this kind may occur only once.
    Once,
    /// A plan has a line of a kind.
    Needed(Kind),
    /// Temporary RAM and RAM have no address in common.
    Apart,
    /// The page region leaves room for the heap.
    HeapRoom,
}

// How a line of a kind is written.
fn words_of(kind: Kind) -> &'static str {
    match kind {
        Kind::Temp =>
            "takes a base and a size and nothing more: temp BASE SIZE; a comment has a line of its own",
        Kind::Ram =>
            "takes a base and a size and nothing more: ram BASE SIZE; a comment has a line of its own",
        Kind::Volume =>
            "takes a base and a file's name, which has no space, and nothing more: volume BASE NAME; a comment has a line of its own",
        Kind::Fuel =>
            "takes a number of actions and nothing more: fuel N; a comment has a line of its own",
        Kind::Pages => "takes a size and nothing more: pages SIZE; a comment has a line of its own",
    }
}

// How often a line of a kind must occur.
fn need_of(kind: Kind) -> &'static str {
    match kind {
        Kind::Volume => "begins no line of the plan; 1 to 16 lines volume BASE NAME have to",
        Kind::Ram => "begins no line of the plan; one line ram BASE SIZE has to",
        Kind::Temp | Kind::Fuel | Kind::Pages =>
            "begins no line of the plan; one line temp BASE SIZE has to",
    }
}

impl Rule {
    /// What is wrong with a word that breaks the rule, and what is allowed.
    pub fn words(self) -> &'static str {
        match self {
            Rule::Printable =>
                "is no character of a plan; words are of the characters ! to ~, with spaces between them, and a tab is no space",
            Rule::NoFrontSpace => "has a space in front of it; a line begins with its first word",
            Rule::NoBackSpace => "begins a line that a space ends; a line ends with its last word",
            Rule::Keyword => "begins no line; ram, temp, volume, pages, fuel do, and # a comment",
            Rule::Words(kind) => words_of(kind),
            Rule::NameLength => "is too long a name; a volume's file has one of 1 to 255 bytes",
            Rule::Number =>
                "is no number; decimal digits are, or 0x and hexadecimal digits, below 2^64",
            Rule::WholePages => "is no multiple of 4096 (0x1000)",
            Rule::TempSize =>
                "is no size of temporary RAM; 0x4000 to 0x100000 are (16 KiB to 1 MiB)",
            Rule::RamSize => "is no size of RAM; 0x1000 to 0x10000000 are (4 KiB to 256 MiB)",
            Rule::VolumeBase => "is no base of a volume; a multiple of 8 is",
            Rule::LeastAddress => "is too low an address; memory and volumes lie from 0x100000 on",
            Rule::MostEnd =>
                "is too high a base for this size; memory ends at 0x10000000000 (2^40) at most",
            Rule::MostVolumes => "stands for a 17th time; a plan has at most 16 volumes",
            Rule::Fuel => "is no fuel; 1 to 1000000 are",
            Rule::PageRegion =>
                "is no size of the page region; 0x1000 to 0x100000 are (4 KiB to 1 MiB)",
            Rule::Once => "begins a second line; a plan has one of its kind",
            Rule::Needed(kind) => need_of(kind),
            Rule::Apart => "has addresses that temp and ram both have; no address may be in both",
            Rule::HeapRoom =>
                "leaves too little of temporary RAM; 0x4000 bytes of it (16 KiB) have to be left",
        }
    }
}
