// The lines of notifications.
ghost use Rattle.std.specs.Prelude.{IfSome, IsNone};
ghost use Rattle.trace_reader.specs.{Readable.IsLineOf, Lacking.LacksLinesOfNotify};

use crate::field::fields_after;
use boot_model::Line;
use boot_trace::keywords::{NOTIFY_CALLBACK, NOTIFY_DISPATCH, NOTIFY_PROTOCOL};

// The line of a notification that begins.
#[tactic(auto, unfolding(boot_model::specs::Text::keyword))]
pub(crate) fn notify_line(line: &[u8]) -> Option<Line>
    ensures read { IfSome result (IsLineOf line.now) }
    ensures none { IsNone result → LacksLinesOfNotify line.now }
{
    if let Some((volume, (name, (fired, ())))) = fields_after(line, NOTIFY_CALLBACK) {
        return Some(Line::NotifyCallback {
            volume,
            name,
            fired,
        });
    }
    if let Some((volume, (name, (fired, ())))) = fields_after(line, NOTIFY_DISPATCH) {
        return Some(Line::NotifyDispatch {
            volume,
            name,
            fired,
        });
    }
    if let Some((volume, (name, (fired, ())))) = fields_after(line, NOTIFY_PROTOCOL) {
        return Some(Line::NotifyProtocol {
            volume,
            name,
            fired,
        });
    }
    None
}
