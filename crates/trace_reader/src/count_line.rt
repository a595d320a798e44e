// The lines of counts, with which the lists begin.
ghost use Rattle.std.specs.Prelude.{IfSome, IsNone};
ghost use Rattle.trace_reader.specs.{Readable.IsLineOf, Lacking.LacksLinesOfCount};

use crate::field::fields_after;
use boot_model::Line;
use boot_trace::keywords::{CALLBACKS, DISPATCHES, HANDLES, HOBS, PENDINGS, PPIS};

// The line of a count.
#[tactic(auto, unfolding(boot_model::specs::Text::keyword))]
pub(crate) fn count_line(line: &[u8]) -> Option<Line>
    ensures read { IfSome result (IsLineOf line.now) }
    ensures none { IsNone result → LacksLinesOfCount line.now }
{
    if let Some((count, ())) = fields_after(line, PPIS) {
        return Some(Line::Ppis { count });
    }
    if let Some((count, ())) = fields_after(line, CALLBACKS) {
        return Some(Line::Callbacks { count });
    }
    if let Some((count, ())) = fields_after(line, DISPATCHES) {
        return Some(Line::Dispatches { count });
    }
    if let Some((count, ())) = fields_after(line, PENDINGS) {
        return Some(Line::Pendings { count });
    }
    if let Some((count, ())) = fields_after(line, HOBS) {
        return Some(Line::Hobs { count });
    }
    if let Some((count, ())) = fields_after(line, HANDLES) {
        return Some(Line::Handles { count });
    }
    None
}
