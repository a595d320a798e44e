// The words of a line, each as the value that it shows.
ghost use Rattle.std.specs.Prelude.{◌≡◌};
ghost use Rattle.source_words.specs.Words.{words};
ghost use Rattle.volume_text.specs.Reading.{Gives};
ghost use Rattle.volume_text.specs.Words.{word_at, none_left, guid_at, phase_at, is_length, length_at, pad_length_at, system_at, number_at, told_at, is_header, header_at, place_at, size_at, last_number, attributes_at, fixed_at, last_alignment, alignment_at, chosen_at, file_type_at, section_type_at, ui_name_at};

use crate::fault::{Cause, Stop};
use crate::keyword::{byte_of, file_type_of, phase_of, system_of};
use crate::user_interface::is_ui_name;
use fv_volume::build::{
    Alignment, EXT_AT, EXT_HEADER_LEN, FileAttributes, FileSystem, HEADER_LEN, MOST_LEN,
    is_header_length,
};
use fv_volume::volume_header::LEAST_HEADER_LEN;
use line_words::number_of;
use pi_base::{Guid, Phase};
use source_words::{guid_of, next_word};

/// The longest body of a file in FFS2.
const MOST_PAD: u64 = 0xff_ffe6;

/// How many numbers 16 bits can tell.
const NUMBERS_OF_16_BITS: u64 = 0x1_0000;

/// How many numbers 32 bits can tell.
const NUMBERS_OF_32_BITS: u64 = 0x1_0000_0000;

/// The first word, and what follows it.
pub(crate) fn word(text: &[u8]) -> Result<(&[u8], &[u8]), Stop>
    ensures { Gives (λ x. (x.0.now, words x.1.now)) result (word_at (words text.now)) }
{
    match next_word(text) {
        Some((word, rest)) => Ok((word, rest)),
        None => Err(Stop::Fault(Cause::Missing)),
    }
}

/// That no word is left.
pub(crate) fn none_left(text: &[u8]) -> Result<(), Stop>
    ensures { Gives (λ x. x) result (none_left (words text.now)) }
{
    match next_word(text) {
        None => Ok(()),
        Some(_) => Err(Stop::Fault(Cause::Extra)),
    }
}

/// A GUID.
#[tactic(auto, unfolding(crate::specs::Words::guid_at))]
pub(crate) fn guid(text: &[u8]) -> Result<(Guid, &[u8]), Stop>
    ensures { Gives (λ x. (x.0, words x.1.now)) result (guid_at (words text.now)) }
{
    let (word, rest) = word(text)?;
    match guid_of(word) {
        Some(guid) => Ok((guid, rest)),
        None => Err(Stop::Fault(Cause::Guid)),
    }
}

/// A phase.
#[tactic(auto, unfolding(crate::specs::Words::phase_at))]
pub(crate) fn phase(text: &[u8]) -> Result<(Phase, &[u8]), Stop>
    ensures { Gives (λ x. (x.0, words x.1.now)) result (phase_at (words text.now)) }
{
    let (word, rest) = word(text)?;
    match phase_of(word) {
        Some(phase) => Ok((phase, rest)),
        None => Err(Stop::Fault(Cause::Word)),
    }
}

/// The length of a volume.
#[tactic(auto, unfolding(crate::specs::Words::length_at))]
pub(crate) fn length(text: &[u8]) -> Result<(u64, &[u8]), Stop>
    ensures { Gives (λ x. (x.0, words x.1.now)) result (length_at (words text.now)) }
{
    let (word, rest) = word(text)?;
    let Some(len) = number_of(word) else {
        return Err(Stop::Fault(Cause::Number));
    };
    if is_length(len) {
        Ok((len, rest))
    } else {
        Err(Stop::Fault(Cause::Range))
    }
}

/// Whether a volume may be of this length.
pub(crate) fn is_length(len: u64) -> bool
    ensures { result ≡ is_length len }
{
    LEAST_HEADER_LEN as u64 <= len && len <= MOST_LEN
}

/// The length of a pad file's body.
#[tactic(auto, unfolding(crate::specs::Words::pad_length_at))]
pub(crate) fn pad_length(text: &[u8]) -> Result<(u64, &[u8]), Stop>
    ensures { Gives (λ x. (x.0, words x.1.now)) result (pad_length_at (words text.now)) }
{
    let (word, rest) = word(text)?;
    let Some(len) = number_of(word) else {
        return Err(Stop::Fault(Cause::Number));
    };
    if len <= MOST_PAD {
        Ok((len, rest))
    } else {
        Err(Stop::Fault(Cause::Range))
    }
}

/// The file system that the first word names, FFS2 where there is none, and what follows it.
#[tactic(auto, unfolding(crate::specs::Words::system_at))]
pub(crate) fn system(text: &[u8]) -> Result<(FileSystem, &[u8]), Stop>
    ensures { Gives (λ x. (x.0, words x.1.now)) result (system_at (words text.now)) }
{
    let Some((word, rest)) = next_word(text) else {
        return Ok((FileSystem::Ffs2, text));
    };
    match system_of(word) {
        Some(system) => Ok((system, rest)),
        None => Err(Stop::Fault(Cause::Word)),
    }
}

// A number, and what follows it.
#[tactic(auto, unfolding(crate::specs::Words::number_at))]
fn number(text: &[u8]) -> Result<(u64, &[u8]), Stop>
    ensures { Gives (λ x. (x.0, words x.1.now)) result (number_at (words text.now)) }
{
    let (word, rest) = word(text)?;
    match number_of(word) {
        Some(n) => Ok((n, rest)),
        None => Err(Stop::Fault(Cause::Number)),
    }
}

// The number behind a word where that stands first, and else the usual one; and what follows it.
#[tactic(auto, unfolding(crate::specs::Words::told_at))]
fn told<'a>(text: &'a [u8], key: &[u8], usual: u64) -> Result<(u64, &'a [u8]), Stop>
    ensures { Gives (λ x. (x.0, words x.1.now)) result (told_at key.now usual (words text.now)) }
{
    let Some((word, rest)) = next_word(text) else {
        return Ok((usual, text));
    };
    if word == key {
        number(rest)
    } else {
        Ok((usual, text))
    }
}

/// Whether a volume of this length may have a header of so many bytes.
pub(crate) fn is_header(len: u64, header_len: u64) -> bool
    ensures { result ≡ is_header len header_len }
{
    is_header_length(header_len) && header_len <= len
}

/// HeaderLength in a volume of this length, behind the word `header`, and the usual one where it is not there.
#[tactic(auto, unfolding(crate::specs::Words::header_at))]
pub(crate) fn header(text: &[u8], len: u64) -> Result<(u16, &[u8]), Stop>
    ensures { Gives (λ x. (x.0, words x.1.now)) result (header_at len (words text.now)) }
{
    let (header_len, rest) = told(text, b"header", HEADER_LEN as u64)?;
    if is_header(len, header_len) {
        Ok((header_len as u16, rest))
    } else {
        Err(Stop::Fault(Cause::Range))
    }
}

/// ExtHeaderOffset behind the word `at`, and the usual one where it is not there.
#[tactic(auto, unfolding(crate::specs::Words::place_at))]
pub(crate) fn place(text: &[u8]) -> Result<(u16, &[u8]), Stop>
    ensures { Gives (λ x. (x.0, words x.1.now)) result (place_at (words text.now)) }
{
    let (at, rest) = told(text, b"at", u64::from(EXT_AT))?;
    if at < NUMBERS_OF_16_BITS {
        Ok((at as u16, rest))
    } else {
        Err(Stop::Fault(Cause::Range))
    }
}

/// ExtHeaderSize behind the word `size`, and that of an extended header without entries where it is not there.
#[tactic(auto, unfolding(crate::specs::Words::size_at))]
pub(crate) fn size(text: &[u8]) -> Result<(u32, &[u8]), Stop>
    ensures { Gives (λ x. (x.0, words x.1.now)) result (size_at (words text.now)) }
{
    let (size, rest) = told(text, b"size", u64::from(EXT_HEADER_LEN))?;
    if u64::from(EXT_HEADER_LEN) <= size && size < NUMBERS_OF_32_BITS {
        Ok((size as u32, rest))
    } else {
        Err(Stop::Fault(Cause::Range))
    }
}

// A number of 32 bits, and no more.
#[tactic(auto, unfolding(crate::specs::Words::last_number))]
fn last_number(text: &[u8]) -> Result<u32, Stop>
    ensures { Gives (λ x. x) result (last_number (words text.now)) }
{
    let (word, rest) = word(text)?;
    let Some(n) = number_of(word) else {
        return Err(Stop::Fault(Cause::Number));
    };
    if n >= NUMBERS_OF_32_BITS {
        return Err(Stop::Fault(Cause::Range));
    }
    none_left(rest)?;
    Ok(n as u32)
}

/// The attributes of a volume behind the word `attributes`, and none where it is not there.
#[tactic(auto, unfolding(crate::specs::Words::attributes_at))]
pub(crate) fn attributes(text: &[u8]) -> Result<u32, Stop>
    ensures { Gives (λ x. x) result (attributes_at (words text.now)) }
{
    let Some((word, rest)) = next_word(text) else {
        return Ok(0);
    };
    if word == b"attributes".as_slice() {
        last_number(rest)
    } else {
        Err(Stop::Fault(Cause::Extra))
    }
}

// Whether the word `fixed` stands first, and what follows it.
#[tactic(auto, unfolding(crate::specs::Words::fixed_at))]
fn fixed(text: &[u8]) -> (bool, &[u8])
    ensures { (result.0, words result.1.now) ≡ fixed_at (words text.now) }
{
    match next_word(text) {
        None => (false, text),
        Some((word, rest)) => {
            if word == b"fixed".as_slice() {
                (true, rest)
            } else {
                (false, text)
            }
        }
    }
}

// An alignment by its number of bytes, and no more.
#[tactic(auto, unfolding(crate::specs::Words::last_alignment))]
fn last_alignment(text: &[u8]) -> Result<Alignment, Stop>
    ensures { Gives (λ x. x) result (last_alignment (words text.now)) }
{
    let (word, rest) = word(text)?;
    let Some(n) = number_of(word) else {
        return Err(Stop::Fault(Cause::Number));
    };
    let Some(alignment) = Alignment::of_len(n) else {
        return Err(Stop::Fault(Cause::Range));
    };
    none_left(rest)?;
    Ok(alignment)
}

// The alignment behind the word `align`, and a byte where it is not there.
#[tactic(auto, unfolding(crate::specs::Words::alignment_at))]
fn alignment(text: &[u8]) -> Result<Alignment, Stop>
    ensures { Gives (λ x. x) result (alignment_at (words text.now)) }
{
    let Some((word, rest)) = next_word(text) else {
        return Ok(Alignment::Byte);
    };
    if word == b"align".as_slice() {
        last_alignment(rest)
    } else {
        Err(Stop::Fault(Cause::Extra))
    }
}

/// The attributes of a file: `fixed`, and `align` with a number, or one of them or none.
#[tactic(auto, unfolding(crate::specs::Words::chosen_at))]
pub(crate) fn chosen(text: &[u8]) -> Result<FileAttributes, Stop>
    ensures { Gives (λ x. x) result (chosen_at (words text.now)) }
{
    let (fixed, rest) = fixed(text);
    let alignment = alignment(rest)?;
    Ok(FileAttributes { fixed, alignment })
}

/// The type of a file.
#[tactic(auto, unfolding(crate::specs::Words::file_type_at))]
pub(crate) fn file_type(text: &[u8]) -> Result<(u8, &[u8]), Stop>
    ensures { Gives (λ x. (x.0, words x.1.now)) result (file_type_at (words text.now)) }
{
    let (word, rest) = word(text)?;
    match file_type_of(word) {
        Some(kind) => Ok((kind, rest)),
        None => Err(Stop::Fault(Cause::FileType)),
    }
}

/// The type of a section.
#[tactic(auto, unfolding(crate::specs::Words::section_type_at))]
pub(crate) fn section_type(text: &[u8]) -> Result<(u8, &[u8]), Stop>
    ensures { Gives (λ x. (x.0, words x.1.now)) result (section_type_at (words text.now)) }
{
    let (word, rest) = word(text)?;
    match byte_of(word) {
        Some(kind) => Ok((kind, rest)),
        None => Err(Stop::Fault(Cause::SectionType)),
    }
}

/// A name in a user interface section.
#[tactic(auto, unfolding(crate::specs::Words::ui_name_at))]
pub(crate) fn ui_word(text: &[u8]) -> Result<(&[u8], &[u8]), Stop>
    ensures { Gives (λ x. (x.0.now, words x.1.now)) result (ui_name_at (words text.now)) }
{
    let (name, rest) = word(text)?;
    if is_ui_name(name) {
        Ok((name, rest))
    } else {
        Err(Stop::Fault(Cause::Word))
    }
}
