// Bytes that words spell to the end of a line.
ghost use Rattle.std.specs.Prelude.{◌≡◌, IfOk, flat_map};
ghost use Rattle.source_words.specs.Words.{words};
ghost use Rattle.volume_text.specs.{Reading.Gives, Bytes.bytes_of, Bytes.guids_of};

use crate::fault::{Cause, Stop};
use hex::FromHexError;
use pi_base::{OutOfMemory, Seq};
use source_words::{guid_of, next_word};
use std::alloc::Global;

// The words one behind the other.
fn joined(alloc: Global, text: &[u8]) -> Result<Seq<u8>, OutOfMemory>
    ensures { IfOk result (λ whole. whole ≡ flat_map (λ word. word) (words text.now)) }
{
    let mut whole = Seq::new(alloc);
    let mut rest = text;
    'words: while let Some((word, behind)) = next_word(rest) {
        whole.append(word)?;
        rest = behind;
    }
    Ok(whole)
}

/// The bytes that the words spell in hexadecimal.
#[tactic(auto, unfolding(crate::specs::Bytes::bytes_of))]
pub(crate) fn bytes(alloc: Global, text: &[u8]) -> Result<Seq<u8>, Stop>
    ensures { Gives (λ x. x) result (bytes_of (words text.now)) }
{
    let digits = joined(alloc, text)?;
    match hex::decode(alloc, digits.as_slice()) {
        Ok(bytes) => Ok(Seq::from_vec(bytes)),
        Err(FromHexError::OutOfMemory) => Err(Stop::Memory),
        Err(_) => Err(Stop::Fault(Cause::Bytes)),
    }
}

/// The bytes of the GUIDs that the words name or spell.
pub(crate) fn guids(alloc: Global, text: &[u8]) -> Result<Seq<u8>, Stop>
    ensures { Gives (λ x. x) result (guids_of (words text.now)) }
{
    let mut list = Seq::new(alloc);
    let mut rest = text;
    'words: while let Some((word, behind)) = next_word(rest) {
        match guid_of(word) {
            Some(guid) => {
                list.append(&guid.0)?;
                rest = behind;
            }
            None => return Err(Stop::Fault(Cause::Guid)),
        }
    }
    Ok(list)
}
