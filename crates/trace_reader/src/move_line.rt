// The lines of the move to permanent memory.
ghost use Rattle.std.specs.Prelude.{IfSome, IsNone};
ghost use Rattle.trace_reader.specs.{Readable.IsLineOf, Lacking.LacksLinesOfMove};

use crate::field::fields_after;
use crate::fixed_word::Fixed;
use crate::number::Hexadecimal;
use boot_model::Line;
use boot_trace::keywords::{CORE_INSTALL, MIGRATE};

// The line of the move, or of the PPI that is installed after it.
#[tactic(auto, unfolding(boot_model::specs::Text::keyword))]
pub(crate) fn move_line(line: &[u8]) -> Option<Line>
    ensures read { IfSome result (IsLineOf line.now) }
    ensures none { IsNone result → LacksLinesOfMove line.now }
{
    if let Some((Hexadecimal(from), (Hexadecimal(to), ()))) = fields_after(line, MIGRATE) {
        return Some(Line::Migrate { from, to });
    }
    if let Some((Fixed { value: status }, ())) = fields_after(line, CORE_INSTALL) {
        return Some(Line::CoreInstall { status });
    }
    None
}
