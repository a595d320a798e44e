// Names in user interface sections. PI 1.8, volume 3, `EFI_SECTION_USER_INTERFACE`.
ghost use Rattle.std.specs.Prelude.{◌≡◌, IfOk};
ghost use Rattle.volume_text.specs.UserInterface.{is_name_byte, is_ui_name, ui_bytes, low_bytes, FindsName};

use pi_base::{OutOfMemory, Seq};
use std::alloc::Global;

/// The length of the zero that ends a name.
const END_LEN: usize = 2;

// Whether a byte is a character of a name that a word can say.
fn is_name_byte(byte: u8) -> bool
    ensures { result ≡ is_name_byte byte }
{
    b' ' < byte && byte <= b'~' && !matches!(byte, b'#' | b'(' | b')')
}

/// Whether each byte is a character of a name that a word can say.
pub(crate) fn is_ui_name(name: &[u8]) -> bool
    ensures { result ≡ is_ui_name name.now }
{
    name.iter().all(|byte| is_name_byte(*byte))
}

/// The body of the section with a name: UTF-16 with a zero at its end.
pub(crate) fn ui_bytes(alloc: Global, name: &[u8]) -> Result<Seq<u8>, OutOfMemory>
    ensures { IfOk result (λ body. body ≡ ui_bytes name.now) }
{
    let mut body = Seq::new(alloc);
    let mut rest = name;
    'characters: while let [byte, after @ ..] = rest {
        body.append(&[*byte, 0])?;
        rest = after;
    }
    body.append(&[0, 0])?;
    Ok(body)
}

// The first byte of each two.
fn low_bytes(alloc: Global, bytes: &[u8]) -> Result<Seq<u8>, OutOfMemory>
    ensures { IfOk result (λ name. name ≡ low_bytes bytes.now) }
{
    let mut name = Seq::new(alloc);
    let mut rest = bytes;
    'pairs: while let [low, _, after @ ..] = rest {
        name.push(*low)?;
        rest = after;
    }
    Ok(name)
}

/// The name in the body of a section, if a word can say it.
#[tactic(auto, using(crate::proofs::WideNames::too_short, crate::proofs::WideNames::not_shown, crate::proofs::WideNames::other_bytes, crate::proofs::WideNames::name_there))]
pub fn ui_name(alloc: Global, body: &[u8]) -> Result<Option<Seq<u8>>, OutOfMemory>
    ensures { IfOk result (FindsName body.now) }
{
    if body.len() <= END_LEN {
        return Ok(None);
    }
    let (front, _) = body.split_at(body.len() - END_LEN);
    let name = low_bytes(alloc, front)?;
    if !is_ui_name(name.as_slice()) {
        return Ok(None);
    }
    let spelled = ui_bytes(alloc, name.as_slice())?;
    if spelled.as_slice() == body {
        Ok(Some(name))
    } else {
        Ok(None)
    }
}
