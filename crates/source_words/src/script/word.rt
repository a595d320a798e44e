// The words of a line, each as the value that it shows.
ghost use Rattle.std.specs.Prelude.{◌≡◌, IfOk, flat_map};
ghost use Rattle.source_words.specs.{Words.words, Reading.Gives};
ghost use Rattle.source_words.specs.Word.{word_at, register_of, choice_of, kind_of, status_of, bytes_at};

use crate::script::fault::{LineFault, Stop};
use crate::{is_keyword, next_word};
use act_code::descriptor_kind::{CALLBACK, DISPATCH, PPI};
use hex::FromHexError;
use line_words::number_of;
use pi_base::{OutOfMemory, Seq, Word};
use std::alloc::Global;

const REGISTERS: u64 = 16;

const STATUSES: [Word; 7] = [
    Word::Success,
    Word::InvalidParameter,
    Word::NotFound,
    Word::OutOfResources,
    Word::NotAvailableYet,
    Word::AlreadyStarted,
    Word::AccessDenied,
];

/// The first word, and what follows it.
pub(crate) fn word(text: &[u8]) -> Result<(&[u8], &[u8]), Stop>
    ensures { Gives (λ x. (x.0.now, words x.1.now)) result (word_at (words text.now)) }
{
    match next_word(text) {
        Some((word, rest)) => Ok((word, rest)),
        None => Err(Stop::Fault(LineFault::Missing)),
    }
}

/// A register below 16.
#[tactic(auto, unfolding(crate::specs::Word::register_of))]
pub(crate) fn register_of(word: &[u8]) -> Option<u8>
    ensures { result ≡ register_of word.now }
{
    match word.split_first() {
        Some((b'r', digits)) => match number_of(digits) {
            Some(r) if r < REGISTERS => Some(r as u8),
            _ => None,
        },
        _ => None,
    }
}

/// 0 or 1, for one of two words.
#[tactic(auto, unfolding(crate::specs::Word::choice_of))]
pub(crate) fn choice_of(word: &[u8], zero: &[u8], one: &[u8]) -> Option<u8>
    ensures { result ≡ choice_of zero.now one.now word.now }
{
    if is_keyword(word, zero) {
        Some(0)
    } else if is_keyword(word, one) {
        Some(1)
    } else {
        None
    }
}

/// What a descriptor is of.
#[tactic(auto, unfolding(crate::specs::Word::kind_of))]
pub(crate) fn kind_of(word: &[u8]) -> Option<u8>
    ensures { result ≡ kind_of word.now }
{
    if is_keyword(word, b"ppi") {
        Some(PPI)
    } else if is_keyword(word, b"callback") {
        Some(CALLBACK)
    } else if is_keyword(word, b"dispatch") {
        Some(DISPATCH)
    } else {
        None
    }
}

/// A status by its name, in any case.
#[tactic(auto, unfolding(crate::specs::Word::status_of))]
pub(crate) fn status_of(word: &[u8]) -> Option<Word>
    ensures { result ≡ status_of word.now }
{
    STATUSES
        .iter()
        .copied()
        .find(|status| is_keyword(word, status.text()))
}

// The words one behind the other.
fn joined(alloc: Global, text: &[u8]) -> Result<Seq<u8>, OutOfMemory>
    ensures { IfOk result (λ whole. whole ≡ flat_map (λ word. word) (words text.now)) }
{
    let mut whole = Seq::new(alloc);
    let mut rest = text;
    'words: while let Some((word, behind)) = next_word(rest) {
        whole.append(word)?;
        rest = behind;
    }
    Ok(whole)
}

/// Bytes in hexadecimal, to the end of the line.
#[tactic(auto, unfolding(crate::specs::Word::bytes_at))]
pub(crate) fn bytes(alloc: Global, text: &[u8]) -> Result<(Seq<u8>, &'static [u8]), Stop>
    ensures { Gives (λ x. (x.0, words x.1.now)) result (bytes_at (words text.now)) }
{
    let digits = joined(alloc, text)?;
    match hex::decode(alloc, digits.as_slice()) {
        Ok(bytes) => Ok((Seq::from_vec(bytes), &[])),
        Err(FromHexError::OutOfMemory) => Err(Stop::Memory),
        Err(_) => Err(Stop::Fault(LineFault::Bytes)),
    }
}
