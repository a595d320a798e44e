// The lines of bytes: logged texts, HOBs, and files that could not be read.
ghost use Rattle.std.specs.Prelude.{◌≡◌, ◌<◌, ◌++◌, ◌^◌, ◌∷◌, [], ℕ, List, IfSome, IsNone, IfOk, MatchOption, codes, decimal, flat_map, length, Decides};
ghost use Rattle.hex.specs.Hex.{IsBytes, encode_lower};
ghost use Rattle.boot_io.specs.Line.{spaced};
ghost use Rattle.boot_model.specs.Text.{bytes_text};
ghost use Rattle.line_words.specs.PrintedWords.{Finds, Lacks};
ghost use Rattle.trace_reader.specs.Readable.{IsLineOf, IsLogged};
ghost use Rattle.trace_reader.specs.Lacking.{LacksLogLines, LacksHobLines, LacksFileLines};

use crate::field::{Field, SPACE};
use crate::name_word::is_dash;
use arrayvec::ArrayVec;
use boot_model::{Line, SHOWN_LEN};
use boot_trace::keywords::{HOB, LOG, REFUSED_FILE, REFUSED_LONG};
use line_words::printed::behind;
use line_words::{is_printable, place_of};
use pi_base::{OutOfMemory, Seq};
use std::alloc::Global;

// Whether a script may log the text.
fn is_logged(text: &[u8]) -> bool
    ensures { Decides result (IsLogged text.now) }
{
    !text.is_empty() && text.len() <= SHOWN_LEN && is_printable(text)
}

// What follows a keyword and a space.
fn word_after<'a>(line: &'a [u8], keyword: &[u8]) -> Option<&'a [u8]>
    ensures { MatchOption result ((rest : List ℕ) → line.now ≡ keyword.now ++ 32 ∷ rest → ⊥)
        (λ rest. line.now ≡ keyword.now ++ 32 ∷ rest.now) }
{
    match behind(line, keyword) {
        Some(rest) => behind(rest, b" "),
        None => None,
    }
}

// The line of a text that a script logs.
#[tactic(auto, unfolding(boot_model::specs::Text::keyword), using(crate::proofs::ByteLines::one_word))]
pub(crate) fn log_line(line: &[u8]) -> Option<Line>
    ensures read { IfSome result (IsLineOf line.now) }
    ensures none { IsNone result → LacksLogLines line.now }
{
    let Some(logged) = word_after(line, LOG) else {
        return None;
    };
    if is_logged(logged) {
        let mut text = ArrayVec::new();
        text.try_extend_from_slice(logged).unwrap();
        Some(Line::Log { text })
    } else {
        None
    }
}

// So many zero bytes.
fn zeros(alloc: Global, len: usize) -> Result<Vec<u8>, OutOfMemory>
    ensures { IfOk result (λ bytes. length bytes.items ≡ len) }
{
    match vec![in alloc; 0u8; len] {
        Ok(bytes) => Ok(bytes),
        Err(_) => Err(OutOfMemory),
    }
}

// Whether a word shows bytes.
fn is_hex_of(alloc: Global, word: &[u8], bytes: &[u8]) -> Result<bool, OutOfMemory>
    ensures shown { IfOk result (λ shown. Decides shown (word.now ≡ encode_lower bytes.now)) }
    ensures fits { IsBytes bytes.now }
{
    match hex::encode(alloc, bytes) {
        Ok(text) => Ok(text.as_bytes() == word),
        Err(_) => Err(OutOfMemory),
    }
}

// The bytes, if they are some and the word shows them.
fn shown_bytes(alloc: Global, word: &[u8], bytes: Seq<u8>) -> Result<Option<Seq<u8>>, OutOfMemory>
    ensures { IfOk result
        (λ shown. MatchOption shown (word.now ≡ encode_lower bytes → 0 < length bytes → ⊥)
        (λ same. (word.now ≡ encode_lower bytes) × (same ≡ bytes) × IsBytes bytes × (0 < length bytes))) }
{
    if bytes.is_empty() {
        return Ok(None);
    }
    match is_hex_of(alloc, word, bytes.as_slice()) {
        Ok(true) => Ok(Some(bytes)),
        Ok(false) => Ok(None),
        Err(OutOfMemory) => Err(OutOfMemory),
    }
}

// The bytes that a word shows.
fn bytes_of(alloc: Global, word: &[u8]) -> Result<Option<Seq<u8>>, OutOfMemory>
    ensures { IfOk result (Finds (λ bytes. IsBytes bytes × (word.now ≡ bytes_text bytes))) }
{
    if is_dash(word) {
        return Ok(Some(Seq::new(alloc)));
    }
    let mut bytes = match zeros(alloc, word.len() / 2) {
        Ok(bytes) => bytes,
        Err(OutOfMemory) => return Err(OutOfMemory),
    };
    match hex::decode_to_slice(word, bytes.as_mut_slice()) {
        Ok(()) => {}
        Err(_) => return Ok(None),
    }
    shown_bytes(alloc, word, Seq::from_vec(bytes))
}

// The type of a HOB and the word of its bytes.
fn hob_words(line: &[u8]) -> Option<(u16, &[u8])>
    ensures { MatchOption result
        ((kind : ℕ) (body : List ℕ) → kind < 2 ^ 16 → line.now ≡ codes "hob" ++ flat_map spaced (decimal kind ∷ body ∷ []) → ⊥)
        (λ words. (words.0 < 2 ^ 16) × (line.now ≡ codes "hob" ++ flat_map spaced (decimal words.0 ∷ words.1.now ∷ []))) }
{
    let Some(words) = word_after(line, HOB) else {
        return None;
    };
    let (word, rest) = words.split_at(place_of(words, SPACE));
    let Some(kind) = u16::read(word) else {
        return None;
    };
    match behind(rest, b" ") {
        Some(body) => Some((kind, body)),
        None => None,
    }
}

// The line of a HOB.
#[tactic(auto, unfolding(boot_model::specs::Text::keyword))]
pub(crate) fn hob_line(alloc: Global, line: &[u8]) -> Result<Option<Line>, OutOfMemory>
    ensures read { IfOk result (λ found. IfSome found (IsLineOf line.now)) }
    ensures none { IfOk result (λ found. IsNone found → LacksHobLines line.now) }
{
    let Some((kind, word)) = hob_words(line) else {
        return Ok(None);
    };
    match bytes_of(alloc, word) {
        Ok(Some(body)) => Ok(Some(Line::Hob { kind, body })),
        Ok(None) => Ok(None),
        Err(OutOfMemory) => Err(OutOfMemory),
    }
}

// A copy of a name.
fn kept(alloc: Global, name: &[u8]) -> Result<Seq<u8>, OutOfMemory>
    ensures same { IfOk result (λ copy. copy ≡ name.now) }
    ensures bytes { IsBytes name.now }
{
    let mut copy = Seq::new(alloc);
    match copy.append(name) {
        Ok(()) => Ok(copy),
        Err(OutOfMemory) => Err(OutOfMemory),
    }
}

// The line of a file that could not be read, or is too long.
#[tactic(auto, unfolding(boot_model::specs::Text::keyword), using(crate::proofs::ByteLines::one_word))]
pub(crate) fn file_line(alloc: Global, line: &[u8]) -> Result<Option<Line>, OutOfMemory>
    requires { Lacks 10 line.now }
    ensures read { IfOk result (λ found. IfSome found (IsLineOf line.now)) }
    ensures none { IfOk result (λ found. IsNone found → LacksFileLines line.now) }
{
    if let Some(name) = word_after(line, REFUSED_FILE) {
        return match kept(alloc, name) {
            Ok(name) => Ok(Some(Line::RefusedFile { name })),
            Err(OutOfMemory) => Err(OutOfMemory),
        };
    }
    if let Some(name) = word_after(line, REFUSED_LONG) {
        return match kept(alloc, name) {
            Ok(name) => Ok(Some(Line::RefusedLong { name })),
            Err(OutOfMemory) => Err(OutOfMemory),
        };
    }
    Ok(None)
}
