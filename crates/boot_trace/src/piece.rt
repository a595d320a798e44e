//! The words of a line, before their bytes are made.
ghost use Rattle.std.specs.Prelude.{◌≡◌};
ghost use Rattle.boot_model.specs.Text.{by_text, bytes_text, name_text, rank_text};
ghost use Rattle.boot_trace.specs.Pieces.{piece_text};

use crate::marks::{CORE_MAKER, DASH};
use boot_model::ExpressionWord;
use pi_base::Guid;
use store_model::CORE;

// A word of a line.
#[derive(Clone, Copy)]
pub(crate) enum Piece<'a> {
    // Bytes as they are: a fixed word, a logged text or the name of a file.
    Text(&'a [u8]),
    Number(u32),
    Decimal(u64),
    Hexadecimal(u64),
    Name(Guid),
    // Two hexadecimal digits.
    Byte(u8),
    // Two hexadecimal digits a byte.
    Bytes(&'a [u8]),
    Expression(ExpressionWord),
}

// The number of a module, or the core.
pub(crate) fn by(by: u32) -> Piece<'static>
    ensures { piece_text result ≡ by_text by }
{
    if by == CORE {
        Piece::Text(CORE_MAKER)
    } else {
        Piece::Number(by)
    }
}

// A rank, or a dash.
pub(crate) fn rank(rank: Option<u32>) -> Piece<'static>
    ensures { piece_text result ≡ rank_text rank }
{
    match rank {
        Some(rank) => Piece::Number(rank),
        None => Piece::Text(DASH),
    }
}

// A name, or a dash.
pub(crate) fn name(name: Option<Guid>) -> Piece<'static>
    ensures { piece_text result ≡ name_text name }
{
    match name {
        Some(name) => Piece::Name(name),
        None => Piece::Text(DASH),
    }
}

// Bytes in hexadecimal, or a dash.
pub(crate) fn body(bytes: &[u8]) -> Piece<'_>
    ensures { piece_text result ≡ bytes_text bytes.now }
{
    if bytes.is_empty() {
        Piece::Text(DASH)
    } else {
        Piece::Bytes(bytes)
    }
}
