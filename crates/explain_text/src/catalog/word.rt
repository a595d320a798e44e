// The word of a name.
ghost use Rattle.std.specs.Prelude.{◌≡◌, ◌++◌, ◌+◌, ◌*◌, OnOk, option_map};
ghost use Rattle.pi_base.specs.Field.{words_of};
ghost use Rattle.explain_text.specs.Name.{escaped, is_plain, name_word, title_word, unit_text, units_text};

use pi_base::{OutOfMemory, Seq};

const DASH: u8 = b'-';

const BACKSLASH: u8 = b'\\';

// Whether a code unit is shown as it is.
fn is_plain(low: u8, high: u8) -> bool
    ensures { result ≡ is_plain (low + 256 * high) }
{
    high == 0 && low.is_ascii_graphic() && low != BACKSLASH
}

// Adds a code unit by its number.
fn put_escaped(out: &mut Seq<u8>, low: u8, high: u8) -> Result<(), OutOfMemory>
    ensures { OnOk result (out.new ≡ out.old ++ escaped (low + 256 * high)) }
{
    let mut digits = [0u8; 4];
    hex::encode_to_slice(&[high, low], &mut digits).unwrap();
    out.append(b"\\u")?;
    out.append(&digits)
}

// Adds a code unit.
fn put_unit(out: &mut Seq<u8>, low: u8, high: u8) -> Result<(), OutOfMemory>
    ensures { OnOk result (out.new ≡ out.old ++ unit_text (low + 256 * high)) }
{
    if is_plain(low, high) {
        out.push(low)
    } else {
        put_escaped(out, low, high)
    }
}

// Adds code units.
fn put_units(out: &mut Seq<u8>, units: &[u8]) -> Result<(), OutOfMemory>
    ensures { OnOk result (out.new ≡ out.old ++ units_text (words_of units.now)) }
{
    let mut rest = units;
    'units: while let [low, high, after @ ..] = rest {
        put_unit(out, *low, *high)?;
        rest = after;
    }
    Ok(())
}

// Adds the word of a name.
fn put_name(out: &mut Seq<u8>, name: &[u8]) -> Result<(), OutOfMemory>
    ensures { OnOk result (out.new ≡ out.old ++ name_word (words_of name.now)) }
{
    match name {
        [] | [_] => out.push(DASH),
        [DASH, 0] | [DASH, 0, _] => put_escaped(out, DASH, 0),
        units => put_units(out, units),
    }
}

/// Adds the word of a name, whose code units have two bytes each.
pub fn put_title(out: &mut Seq<u8>, title: Option<&[u8]>) -> Result<(), OutOfMemory>
    ensures { OnOk result (out.new ≡ out.old ++ title_word (option_map (λ name. words_of name.now) title.entry)) }
{
    match title {
        Some(name) => put_name(out, name),
        None => out.push(DASH),
    }
}
