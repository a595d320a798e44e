// Commands on the memory space, and the lines that spell them.
ghost use Rattle.std.specs.Prelude.{◌≡◌};
ghost use Rattle.gcd_map.specs.CommandText.{kind_named, short_command, long_command, command_of};

use crate::state::GcdKind;
use crate::text_word::kind_word;
use line_words::{first_word, is_plain, number_of};

const ADD: [u8; 3] = *b"add";

const ALLOCATE: [u8; 8] = *b"allocate";

const TOP: [u8; 3] = *b"top";

const FREE: [u8; 4] = *b"free";

const REMOVE: [u8; 6] = *b"remove";

/// The alignments that a command may spell are below this one.
pub const ALIGN_END: u64 = 256;

/// A command on the memory space, with its arguments.
#[derive(Clone, Copy, PartialEq, Eq)]
pub enum Command {
    /// Adds memory of a kind.
    Add { kind: GcdKind, base: u64, len: u64 },
    /// Allocates memory of a kind at a base.
    Allocate { kind: GcdKind, base: u64, len: u64 },
    /// Allocates memory of a kind at the greatest base that is a multiple of 2^`align`.
    Top { kind: GcdKind, align: u8, len: u64 },
    /// Makes allocated memory free.
    Free { base: u64, len: u64 },
    /// Takes free memory away.
    Remove { base: u64, len: u64 },
}

const KINDS: [GcdKind; 4] = [
    GcdKind::NonExistent,
    GcdKind::Reserved,
    GcdKind::System,
    GcdKind::Mmio,
];

// The kind that a word names.
fn kind_named(word: &[u8]) -> Option<GcdKind>
    ensures { result ≡ kind_named word.now }
{
    let mut rest = KINDS.as_slice();
    'kinds: while let [kind, after @ ..] = rest {
        if word == kind_word(*kind) {
            return Some(*kind);
        }
        rest = after;
    }
    None
}

// A command without a kind.
fn short_command(name: &[u8], base: &[u8], len: &[u8]) -> Option<Command>
    ensures { result ≡ short_command name.now base.now len.now }
{
    let base = number_of(base)?;
    let len = number_of(len)?;
    if name == FREE.as_slice() {
        Some(Command::Free { base, len })
    } else if name == REMOVE.as_slice() {
        Some(Command::Remove { base, len })
    } else {
        None
    }
}

// A command with a kind.
fn long_command(name: &[u8], kind: &[u8], second: &[u8], len: &[u8]) -> Option<Command>
    ensures { result ≡ long_command name.now kind.now second.now len.now }
{
    let kind = kind_named(kind)?;
    let base = number_of(second)?;
    let len = number_of(len)?;
    if name == ADD.as_slice() {
        Some(Command::Add { kind, base, len })
    } else if name == ALLOCATE.as_slice() {
        Some(Command::Allocate { kind, base, len })
    } else if name == TOP.as_slice() && base < ALIGN_END {
        let align = base as u8;
        Some(Command::Top { kind, align, len })
    } else {
        None
    }
}

/// The command that a line spells. It is one of `add KIND BASE LEN`, `allocate KIND BASE LEN`, `top KIND ALIGN LEN`, `free BASE LEN` or `remove BASE LEN`. KIND
/// is `nonexistent`, `reserved`, `system` or `mmio`, and ALIGN is below `ALIGN_END`.
pub fn read_command(line: &[u8]) -> Option<Command>
    ensures { result ≡ command_of line.now }
{
    if line.is_empty() || !is_plain(line) {
        return None;
    }
    let (name, rest) = first_word(line);
    let (first, rest) = first_word(rest);
    let (second, rest) = first_word(rest);
    let (third, rest) = first_word(rest);
    let (more, _) = first_word(rest);
    if !more.is_empty() {
        None
    } else if !third.is_empty() {
        long_command(name, first, second, third)
    } else if !second.is_empty() {
        short_command(name, first, second)
    } else {
        None
    }
}
