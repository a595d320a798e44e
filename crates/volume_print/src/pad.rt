// The pads that fill a stretch in front of a file.
ghost use Rattle.std.specs.Prelude.{◌≡◌, ◌≤◌, ◌&&◌, ◌++◌, length, flat_map, OnOk};
ghost use Rattle.volume_print.specs.Places.{between, pad_of, pads_in};
ghost use Rattle.volume_print.specs.Spelling.{are_erased, pad_line, pad_text};

use crate::file::{put_head, put_plain_body};
use crate::word::put_decimal;
use fv_volume::build::FileAttributes;
use fv_volume::file_header::HEADER_LEN as FILE_HEADER_LEN;
use fv_volume::file_type::PAD;
use pi_base::{Guid, OutOfMemory, Seq};

/// The bytes of a long pad file, its header in it: a longer stretch has several.
const LONG_PAD: usize = 0x80_0000;

/// An erased byte.
const ERASED: u8 = 0xff;

/// The bytes from a place to another one.
pub(crate) fn between(bytes: &[u8], from: usize, to: usize) -> &[u8]
    requires { to ≤ length bytes.now }
    ensures { result.now ≡ between bytes.now from to }
{
    if to <= from {
        return &[];
    }
    &bytes[from..to]
}

// Whether all of the bytes look erased.
fn are_erased(bytes: &[u8]) -> bool
    ensures { result ≡ are_erased bytes.now }
{
    bytes.iter().all(|byte| *byte == ERASED)
}

// Whether a pad with this name and this body looks erased.
fn is_erased(name: &Guid, body: &[u8]) -> bool
    ensures { result ≡ (are_erased name.now.0 && are_erased body.now) }
{
    are_erased(name.0.as_slice()) && are_erased(body)
}

// Adds the line of a pad that looks erased, with so many bytes of body.
fn put_erased(out: &mut Seq<u8>, len: usize) -> Result<(), OutOfMemory>
    ensures { OnOk result (out.new ≡ out.old ++ pad_line len) }
{
    out.append(b"pad ")?;
    put_decimal(out, len as u64)?;
    out.append(b"\n")
}

// Adds the text of the pad that is as long as a piece of a stretch.
fn put_pad(out: &mut Seq<u8>, piece: &[u8]) -> Result<(), OutOfMemory>
    requires { FILE_HEADER_LEN ≤ length piece.now }
    ensures { OnOk result (out.new ≡ out.old ++ pad_text (pad_of piece.now)) }
{
    let (_, body) = piece.split_at(FILE_HEADER_LEN);
    let name = Guid::at(piece, 0);
    if is_erased(&name, body) {
        return put_erased(out, body.len());
    }
    put_head(out, PAD, &name, FileAttributes::new())?;
    put_plain_body(out, body)
}

/// Adds the texts of the pads that fill a stretch.
pub(crate) fn put_pads(out: &mut Seq<u8>, stretch: &[u8]) -> Result<(), OutOfMemory>
    ensures { OnOk result (out.new ≡ out.old ++ flat_map pad_text (pads_in stretch.now)) }
{
    if stretch.len() < FILE_HEADER_LEN {
        return Ok(());
    }
    let mut rest = stretch;
    'pads: while rest.len() >= LONG_PAD + FILE_HEADER_LEN {
        let (piece, behind) = rest.split_at(LONG_PAD);
        put_pad(out, piece)?;
        rest = behind;
    }
    put_pad(out, rest)
}
