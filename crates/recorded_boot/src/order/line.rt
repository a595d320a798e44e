// What a line asks for.
ghost use Rattle.std.specs.Prelude.{◌≡◌, ◌≢◌, slice_index};
ghost use Rattle.line_words.specs.Words.{words};
ghost use Rattle.recorded_boot.specs.LineText.{start_by, asked_by, asked_of};

use crate::order::keyword::{Keyword, keyword_named};
use crate::order::word::{guid_of, next_word, volume_of};
use line_words::is_plain;
use pi_base::{Guid, Phase};

/// The start of a module in a phase. PI 1.8, volume 1, "PEI Dispatcher", and volume 2, "DXE Dispatcher".
#[derive(Clone, Copy)]
pub struct Start {
    /// The phase in which the module starts.
    pub phase: Phase,
    /// The number of its volume in the catalogue.
    pub volume: u32,
    /// The name of its file.
    pub name: Guid,
}

/// A start that an order asks for, and the number of its line.
#[derive(Clone, Copy)]
pub struct AskedStart {
    /// The number of its line, from 1.
    pub line: u32,
    /// The start.
    pub start: Start,
}

/// What a line asks for.
#[derive(Clone, Copy)]
pub enum Asked {
    /// That a module starts next.
    Start(AskedStart),
    /// That the boot is followed no further: this is the number of the line, from 1.
    Stop(u32),
}

// The start that the words after a keyword spell.
fn start_by(number: u32, phase: Phase, operands: &[u8]) -> Option<Asked>
    requires { slice_index operands.now 0 ≢ 32 }
    ensures { result ≡ start_by number phase (words operands.now) }
{
    let (volume, rest) = next_word(operands)?;
    let (name, rest) = next_word(rest)?;
    match next_word(rest) {
        Some(_) => None,
        None => {
            let volume = volume_of(volume)?;
            let name = guid_of(name)?;
            let start = Start {
                phase,
                volume,
                name,
            };
            Some(Asked::Start(AskedStart {
                line: number,
                start,
            }))
        }
    }
}

// What a keyword asks for with what follows it.
fn asked_by(number: u32, keyword: Keyword, operands: &[u8]) -> Option<Asked>
    requires { slice_index operands.now 0 ≢ 32 }
    ensures { result ≡ asked_by number keyword (words operands.now) }
{
    match keyword {
        Keyword::Pei => start_by(number, Phase::Pei, operands),
        Keyword::Dxe => start_by(number, Phase::Dxe, operands),
        Keyword::Stop => match next_word(operands) {
            Some(_) => None,
            None => Some(Asked::Stop(number)),
        },
    }
}

// What the line with this number asks for, if it is of a form.
pub(crate) fn asked_of(number: u32, line: &[u8]) -> Option<Asked>
    ensures { result ≡ asked_of number line.now }
{
    if !is_plain(line) {
        return None;
    }
    let (name, operands) = next_word(line)?;
    let keyword = keyword_named(name)?;
    asked_by(number, keyword, operands)
}
