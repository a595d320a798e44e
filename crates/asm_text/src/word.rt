// The words of a line, each as the value that it shows. A word is read only when it is what is printed of the value.
ghost use Rattle.std.specs.Prelude.{◌≡◌, ◌≤◌, length, bytes_eq};
ghost use Rattle.hex.specs.Hex.{encode_lower};
ghost use Rattle.act_code.specs.Reading.{Gives, only_if};
ghost use Rattle.asm_text.specs.WordReading.{space_place, word_at, number_word, hexadecimal_word, register_word, choice_word, kind_word, status_word, bytes_word};

use crate::front::behind;
use act_code::Unread;
use act_code::descriptor_kind::{CALLBACK, DISPATCH, PPI};
use hex::FromHexError;
use line_words::place_of;
use line_words::printed::{decimal_of, hexadecimal_of};
use pi_base::{Seq, Word};
use std::alloc::Global;

const SPACE: u8 = b' ';

const REGISTERS: u64 = act_code::REGISTERS as u64;

const STATUSES: [Word; 7] = [
    Word::Success,
    Word::InvalidParameter,
    Word::NotFound,
    Word::OutOfResources,
    Word::NotAvailableYet,
    Word::AlreadyStarted,
    Word::AccessDenied,
];

/// The index of the first space, or the length if there is none.
pub(crate) fn space_place(text: &[u8]) -> usize
    ensures place { result ≡ space_place text.now }
    ensures within { result ≤ length text.now }
{
    place_of(text, SPACE)
}

/// The word after a space, and what follows it.
#[tactic(auto, unfolding(crate::specs::WordReading::word_at))]
pub(crate) fn word(text: &[u8]) -> Result<(&[u8], &[u8]), Unread>
    ensures { Gives (λ x. (x.0.now, x.1.now)) result (word_at text.now) }
{
    let Some(after) = behind(text, b" ") else {
        return Err(Unread::Malformed);
    };
    Ok(after.split_at(space_place(after)))
}

/// The number whose decimal text a word is.
pub(crate) fn decimal_word(word: &[u8]) -> Option<u64>
    ensures { result ≡ number_word 10 word.now }
{
    decimal_of(word)
}

/// The number whose hexadecimal text a word is.
pub(crate) fn hexadecimal_word(word: &[u8]) -> Option<u64>
    ensures { result ≡ hexadecimal_word word.now }
{
    hexadecimal_of(word)
}

/// A register below 16.
#[tactic(auto, unfolding(crate::specs::WordReading::register_word))]
pub(crate) fn register_word(word: &[u8]) -> Option<u8>
    ensures { result ≡ register_word word.now }
{
    let Some(digits) = behind(word, b"r") else {
        return None;
    };
    let Some(r) = decimal_word(digits) else {
        return None;
    };
    if r < REGISTERS { Some(r as u8) } else { None }
}

/// 0 or 1, for one of two words.
#[tactic(auto, unfolding(crate::specs::WordReading::choice_word))]
pub(crate) fn choice_word(word: &[u8], zero: &[u8], one: &[u8]) -> Option<u64>
    ensures { result ≡ choice_word zero.now one.now word.now }
{
    if word == zero {
        Some(0)
    } else if word == one {
        Some(1)
    } else {
        None
    }
}

/// What a descriptor is of.
#[tactic(auto, unfolding(crate::specs::WordReading::kind_word))]
pub(crate) fn kind_word(word: &[u8]) -> Option<u8>
    ensures { result ≡ kind_word word.now }
{
    if word == b"ppi".as_slice() {
        Some(PPI)
    } else if word == b"callback".as_slice() {
        Some(CALLBACK)
    } else if word == b"dispatch".as_slice() {
        Some(DISPATCH)
    } else {
        None
    }
}

/// A status by its name.
#[tactic(auto, unfolding(crate::specs::WordReading::status_word))]
pub(crate) fn status_word(word: &[u8]) -> Option<Word>
    ensures { result ≡ status_word word.now }
{
    STATUSES
        .iter()
        .copied()
        .find(|status| status.text() == word)
}

// The bytes, if the word is their text.
fn shown_by(alloc: Global, word: &[u8], bytes: Seq<u8>) -> Result<Seq<u8>, Unread>
    ensures { Gives (λ x. x) result (only_if (bytes_eq (encode_lower bytes) word.now) bytes) }
{
    match hex::encode(alloc, bytes.as_slice()) {
        Ok(text) => {
            if text.as_bytes() == word {
                Ok(bytes)
            } else {
                Err(Unread::Malformed)
            }
        }
        Err(_) => Err(Unread::Memory),
    }
}

/// The bytes whose text a word is.
#[tactic(auto, unfolding(crate::specs::WordReading::bytes_word))]
pub(crate) fn bytes_word(alloc: Global, word: &[u8]) -> Result<Seq<u8>, Unread>
    ensures { Gives (λ x. x) result (bytes_word word.now) }
{
    match hex::decode(alloc, word) {
        Ok(bytes) => shown_by(alloc, word, Seq::from_vec(bytes)),
        Err(FromHexError::OutOfMemory) => Err(Unread::Memory),
        Err(_) => Err(Unread::Malformed),
    }
}
