// The lines of the entries of lists.
ghost use Rattle.std.specs.Prelude.{IfSome, IsNone};
ghost use Rattle.trace_reader.specs.{Readable.IsLineOf, Lacking.LacksLinesOfEntry};

use crate::field::fields_after;
use crate::number::{By, Hexadecimal};
use boot_model::Line;
use boot_trace::keywords::{CALLBACK, DISPATCH, HANDLE, PENDING, PPI};

// The line of an entry of a list.
#[tactic(auto, unfolding(boot_model::specs::Text::keyword))]
pub(crate) fn entry_line(line: &[u8]) -> Option<Line>
    ensures read { IfSome result (IsLineOf line.now) }
    ensures none { IsNone result → LacksLinesOfEntry line.now }
{
    if let Some((By(by), (guid, (Hexadecimal(value), ())))) = fields_after(line, PPI) {
        return Some(Line::Ppi { by, guid, value });
    }
    if let Some((guid, (by, (block, ())))) = fields_after(line, CALLBACK) {
        return Some(Line::Callback { guid, by, block });
    }
    if let Some((guid, (by, (block, ())))) = fields_after(line, DISPATCH) {
        return Some(Line::Dispatch { guid, by, block });
    }
    if let Some((guid, (by, (block, ())))) = fields_after(line, PENDING) {
        return Some(Line::Pending { guid, by, block });
    }
    if let Some((handle, (guid, (Hexadecimal(value), ())))) = fields_after(line, HANDLE) {
        return Some(Line::Handle {
            handle,
            guid,
            value,
        });
    }
    None
}
