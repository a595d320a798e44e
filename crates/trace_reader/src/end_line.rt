// The lines of what ends: frames, phases and the run.
ghost use Rattle.std.specs.Prelude.{IfSome, IsNone};
ghost use Rattle.trace_reader.specs.{Readable.IsLineOf, Lacking.LacksLinesOfEnd};

use crate::field::fields_after;
use crate::fixed_word::Fixed;
use crate::number::Hexadecimal;
use boot_model::Line;
use boot_trace::keywords::{DXE_STOP, END, HANDOFF, PEI_STOP, RESULT, WAITING};

// The line of a frame's or a phase's end, of a module that waits, of the hand-off or of the result.
#[tactic(auto, unfolding(boot_model::specs::Text::keyword))]
pub(crate) fn end_line(line: &[u8]) -> Option<Line>
    ensures read { IfSome result (IsLineOf line.now) }
    ensures none { IsNone result → LacksLinesOfEnd line.now }
{
    if let Some((Fixed { value: status }, ())) = fields_after(line, END) {
        return Some(Line::End { status });
    }
    if let Some(()) = fields_after(line, PEI_STOP) {
        return Some(Line::PeiStop);
    }
    if let Some(()) = fields_after(line, DXE_STOP) {
        return Some(Line::DxeStop);
    }
    if let Some((volume, (name, (Fixed { value: reason }, ())))) = fields_after(line, WAITING) {
        return Some(Line::Waiting {
            volume,
            name,
            reason,
        });
    }
    if let Some((Hexadecimal(address), ())) = fields_after(line, HANDOFF) {
        return Some(Line::Handoff { address });
    }
    if let Some((Fixed { value: outcome }, ())) = fields_after(line, RESULT) {
        return Some(Line::Result { outcome });
    }
    None
}
