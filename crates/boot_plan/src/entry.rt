// What a line of a plan says.
ghost use Rattle.std.specs.Prelude.{◌≡◌, option_map};
ghost use Rattle.boot_plan.specs.{Entry.read_entry, View.form_view, View.entry_view};

use crate::form::Form;
use line_words::number_of;

// What a line says, by its first word.
#[derive(Clone, Copy)]
pub enum Entry<'a> {
    Temp { base: u64, size: u64 },
    Ram { base: u64, size: u64 },
    Volume { base: u64, name: &'a [u8] },
    Fuel { count: u64 },
    Pages { size: u64 },
}

// The entry of a form, if each of its words for a number is one.
pub(crate) fn read_entry<'a>(form: &Form<'a>) -> Option<Entry<'a>>
    ensures { option_map entry_view result ≡ read_entry (form_view form.now) }
{
    Some(match *form {
        Form::Temp { base, size } => Entry::Temp {
            base: number_of(base)?,
            size: number_of(size)?,
        },
        Form::Ram { base, size } => Entry::Ram {
            base: number_of(base)?,
            size: number_of(size)?,
        },
        Form::Volume { base, name } => Entry::Volume {
            base: number_of(base)?,
            name,
        },
        Form::Fuel { count } => Entry::Fuel {
            count: number_of(count)?,
        },
        Form::Pages { size } => Entry::Pages {
            size: number_of(size)?,
        },
    })
}
