// The form of a line.
ghost use Rattle.std.specs.Prelude.{◌≡◌, option_map};
ghost use Rattle.boot_plan.specs.Form.{form_of, short_form, long_form};
ghost use Rattle.boot_plan.specs.View.{form_view};

use crate::limits::MOST_NAME;
use line_words::{first_word, is_plain};

const TEMP: [u8; 4] = *b"temp";

const RAM: [u8; 3] = *b"ram";

const VOLUME: [u8; 6] = *b"volume";

const FUEL: [u8; 4] = *b"fuel";

const PAGES: [u8; 5] = *b"pages";

// The form of a line, by its first word: its numbers are words.
#[derive(Clone, Copy)]
pub enum Form<'a> {
    Temp { base: &'a [u8], size: &'a [u8] },
    Ram { base: &'a [u8], size: &'a [u8] },
    Volume { base: &'a [u8], name: &'a [u8] },
    Fuel { count: &'a [u8] },
    Pages { size: &'a [u8] },
}

// The form of two words.
fn short_form<'a>(keyword: &[u8], number: &'a [u8]) -> Option<Form<'a>>
    ensures { option_map form_view result ≡ short_form keyword.now number.now }
{
    if keyword == FUEL.as_slice() {
        Some(Form::Fuel { count: number })
    } else if keyword == PAGES.as_slice() {
        Some(Form::Pages { size: number })
    } else {
        None
    }
}

// The form of three words.
fn long_form<'a>(keyword: &[u8], base: &'a [u8], last: &'a [u8]) -> Option<Form<'a>>
    ensures { option_map form_view result ≡ long_form keyword.now base.now last.now }
{
    if keyword == TEMP.as_slice() {
        Some(Form::Temp { base, size: last })
    } else if keyword == RAM.as_slice() {
        Some(Form::Ram { base, size: last })
    } else if keyword == VOLUME.as_slice() && last.len() <= MOST_NAME {
        Some(Form::Volume { base, name: last })
    } else {
        None
    }
}

// The form of a line, if it has one.
pub(crate) fn form_of(line: &[u8]) -> Option<Form<'_>>
    ensures { option_map form_view result ≡ form_of line.now }
{
    if line.is_empty() || !is_plain(line) {
        return None;
    }
    let (keyword, rest) = first_word(line);
    let (second, rest) = first_word(rest);
    let (third, rest) = first_word(rest);
    if second.is_empty() || !rest.is_empty() {
        None
    } else if third.is_empty() {
        short_form(keyword, second)
    } else {
        long_form(keyword, second, third)
    }
}
