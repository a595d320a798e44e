// Words of bytes in hexadecimal.
ghost use Rattle.std.specs.Prelude.{◌≡◌, ◌<◌, ◌≤◌, ◌/◌, ◌^◌, ◌∷◌, [], length, MatchOption};
ghost use Rattle.hex.specs.Hex.{encode_lower};
ghost use Rattle.line_words.specs.PrintedWords.{Finds};
ghost use Rattle.trace_reader.specs.Readable.{IsShown};

use crate::field::Field;
use arrayvec::ArrayVec;
use boot_model::SHOWN_LEN;

// The type of a file.
#[derive(Clone, Copy)]
pub(crate) struct Kind(pub u8);

// A byte, if the word is its.
fn printed_byte(word: &[u8], byte: u8) -> Option<u8>
    ensures { MatchOption result (word.now ≡ encode_lower (byte ∷ []) → ⊥)
        (λ shown. (word.now ≡ encode_lower (byte ∷ [])) × (shown ∷ [] ≡ byte ∷ []) × (shown < 2 ^ 8)) }
{
    let mut digits = [0u8; 2];
    hex::encode_to_slice(&[byte], &mut digits).unwrap();
    if digits.as_slice() == word {
        Some(byte)
    } else {
        None
    }
}

// The byte whose two digits these are.
fn byte_of(word: &[u8]) -> Option<u8>
    ensures { Finds (λ byte. (byte < 2 ^ 8) × (word.now ≡ encode_lower (byte ∷ []))) result }
{
    let mut bytes = [0u8; 1];
    match hex::decode_to_slice(word, &mut bytes) {
        Ok(()) => {}
        Err(_) => return None,
    }
    let [byte] = bytes;
    printed_byte(word, byte)
}

impl Field for Kind {
    ghost use Rattle.std.specs.Prelude.{◌<◌, ◌^◌, ◌∷◌, []};
    ghost use Rattle.hex.specs.Hex.{encode_lower};

    ghost shows = { λ kind. encode_lower (kind.0 ∷ []) };

    ghost fits = { λ kind. kind.0 < 2 ^ 8 };

    #[tactic(auto, using(crate::proofs::PlainWords::kind_plain))]
    fn read(word: &[u8]) -> Option<Kind> {
        match byte_of(word) {
            Some(kind) => Some(Kind(kind)),
            None => None,
        }
    }
}

impl Field for ArrayVec<u8, SHOWN_LEN> {
    ghost use Rattle.hex.specs.Hex.{encode_lower};
    ghost use Rattle.trace_reader.specs.Readable.{IsShown};

    ghost shows = { λ bytes. encode_lower bytes.items };

    ghost fits = { λ bytes. IsShown bytes.items };

    #[tactic(auto, using(crate::proofs::PlainWords::shown_plain))]
    fn read(word: &[u8]) -> Option<ArrayVec<u8, SHOWN_LEN>> {
        let Some(len) = shown_len(word) else {
            return None;
        };
        let mut room = [0u8; SHOWN_LEN];
        let (bytes, _) = room.split_at_mut(len);
        match hex::decode_to_slice(word, bytes) {
            Ok(()) => {}
            Err(_) => return None,
        }
        shown_of(word, bytes)
    }
}

// How many bytes a word shows, if a script may read so many at once.
fn shown_len(word: &[u8]) -> Option<usize>
    ensures { MatchOption result ((0 < length word.now / 2) × (length word.now / 2 ≤ SHOWN_LEN) → ⊥)
        (λ len. (len ≡ length word.now / 2) × (0 < len) × (len ≤ SHOWN_LEN)) }
{
    let len = word.len() / 2;
    if len > 0 && len <= SHOWN_LEN {
        Some(len)
    } else {
        None
    }
}

// The bytes, if the word is theirs.
fn shown_of(word: &[u8], bytes: &[u8]) -> Option<ArrayVec<u8, SHOWN_LEN>>
    requires some { 0 < length bytes.now }
    requires few { length bytes.now ≤ SHOWN_LEN }
    ensures { MatchOption result (word.now ≡ encode_lower bytes.now → ⊥)
        (λ shown. (word.now ≡ encode_lower bytes.now) × (shown.items ≡ bytes.now) × IsShown shown.items) }
{
    let mut room = [0u8; 2 * SHOWN_LEN];
    let (digits, _) = room.split_at_mut(2 * bytes.len());
    hex::encode_to_slice(bytes, digits).unwrap();
    if &*digits != word {
        return None;
    }
    let mut shown = ArrayVec::new();
    shown.try_extend_from_slice(bytes).unwrap();
    Some(shown)
}
