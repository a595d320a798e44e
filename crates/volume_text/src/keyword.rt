// The first words of lines, and the words for phases, file systems and types.
ghost use Rattle.std.specs.Prelude.{◌≡◌};
ghost use Rattle.volume_text.specs.Keywords.{plain_keyword_of, keyword_of, phase_of, system_of, byte_of, core_type_of, file_type_of};

use fv_volume::build::FileSystem;
use fv_volume::file_type::{
    APPLICATION, COMBINED_MM_DXE, COMBINED_PEIM_DRIVER, DRIVER, DXE_CORE, FREEFORM, PEI_CORE, PEIM,
    RAW, SECURITY_CORE, VOLUME_IMAGE,
};
use line_words::number_of;
use pi_base::Phase;

/// The first word of a line that is no action.
#[derive(Clone, Copy)]
pub(crate) enum Keyword {
    Volume,
    Name,
    File,
    Pad,
    Depex,
    Script,
    Guids,
    Raw,
    Section,
    Ui,
    Body,
    Block,
    End,
}

// The keyword that a word is, of those of raw bytes, blocks and ends.
#[tactic(auto, unfolding(crate::specs::Keywords::plain_keyword_of))]
fn plain_keyword_of(word: &[u8]) -> Option<Keyword>
    ensures { result ≡ plain_keyword_of word.now }
{
    if word == b"guids".as_slice() {
        Some(Keyword::Guids)
    } else if word == b"raw".as_slice() {
        Some(Keyword::Raw)
    } else if word == b"section".as_slice() {
        Some(Keyword::Section)
    } else if word == b"ui".as_slice() {
        Some(Keyword::Ui)
    } else if word == b"body".as_slice() {
        Some(Keyword::Body)
    } else if word == b"block".as_slice() {
        Some(Keyword::Block)
    } else if word == b"end".as_slice() {
        Some(Keyword::End)
    } else {
        None
    }
}

/// The keyword that a word is.
#[tactic(auto, unfolding(crate::specs::Keywords::keyword_of))]
pub(crate) fn keyword_of(word: &[u8]) -> Option<Keyword>
    ensures { result ≡ keyword_of word.now }
{
    if word == b"volume".as_slice() {
        Some(Keyword::Volume)
    } else if word == b"name".as_slice() {
        Some(Keyword::Name)
    } else if word == b"file".as_slice() {
        Some(Keyword::File)
    } else if word == b"pad".as_slice() {
        Some(Keyword::Pad)
    } else if word == b"depex".as_slice() {
        Some(Keyword::Depex)
    } else if word == b"script".as_slice() {
        Some(Keyword::Script)
    } else {
        plain_keyword_of(word)
    }
}

/// The phase that a word names.
#[tactic(auto, unfolding(crate::specs::Keywords::phase_of))]
pub(crate) fn phase_of(word: &[u8]) -> Option<Phase>
    ensures { result ≡ phase_of word.now }
{
    if word == b"pei".as_slice() {
        Some(Phase::Pei)
    } else if word == b"dxe".as_slice() {
        Some(Phase::Dxe)
    } else {
        None
    }
}

/// The file system that a word names.
#[tactic(auto, unfolding(crate::specs::Keywords::system_of))]
pub(crate) fn system_of(word: &[u8]) -> Option<FileSystem>
    ensures { result ≡ system_of word.now }
{
    if word == b"ffs2".as_slice() {
        Some(FileSystem::Ffs2)
    } else if word == b"ffs3".as_slice() {
        Some(FileSystem::Ffs3)
    } else {
        None
    }
}

/// The byte that two hexadecimal digits spell.
#[tactic(auto, unfolding(crate::specs::Keywords::byte_of))]
pub(crate) fn byte_of(word: &[u8]) -> Option<u8>
    ensures { result ≡ byte_of word.now }
{
    match word {
        [high, low] => match number_of(&[b'0', b'x', *high, *low]) {
            Some(n) if n < 256 => Some(n as u8),
            _ => None,
        },
        _ => None,
    }
}

// The type of a core or of an application that a word names, or the one that two hexadecimal digits spell.
#[tactic(auto, unfolding(crate::specs::Keywords::core_type_of))]
fn core_type_of(word: &[u8]) -> Option<u8>
    ensures { result ≡ core_type_of word.now }
{
    if word == b"security-core".as_slice() {
        Some(SECURITY_CORE)
    } else if word == b"pei-core".as_slice() {
        Some(PEI_CORE)
    } else if word == b"dxe-core".as_slice() {
        Some(DXE_CORE)
    } else if word == b"application".as_slice() {
        Some(APPLICATION)
    } else {
        byte_of(word)
    }
}

/// The type of a file that a word names, or that two hexadecimal digits spell.
#[tactic(auto, unfolding(crate::specs::Keywords::file_type_of))]
pub(crate) fn file_type_of(word: &[u8]) -> Option<u8>
    ensures { result ≡ file_type_of word.now }
{
    if word == b"raw".as_slice() {
        Some(RAW)
    } else if word == b"freeform".as_slice() {
        Some(FREEFORM)
    } else if word == b"peim".as_slice() {
        Some(PEIM)
    } else if word == b"driver".as_slice() {
        Some(DRIVER)
    } else if word == b"combined".as_slice() {
        Some(COMBINED_PEIM_DRIVER)
    } else if word == b"volume-image".as_slice() {
        Some(VOLUME_IMAGE)
    } else if word == b"mm-dxe".as_slice() {
        Some(COMBINED_MM_DXE)
    } else {
        core_type_of(word)
    }
}
