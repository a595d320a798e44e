// The lines of reports and starts.
ghost use Rattle.std.specs.Prelude.{IfSome, IsNone};
ghost use Rattle.trace_reader.specs.{Readable.IsLineOf, Lacking.LacksLinesOfStart};

use crate::field::fields_after;
use crate::fixed_word::Fixed;
use boot_model::Line;
use boot_trace::keywords::{DXE_START, DXE_VOLUME, PEI_START, REPORT};

/// Reads the line of a reported or discovered volume, or of a start, from its bytes without the line feed. None if it is not one of these lines.
#[tactic(auto, unfolding(boot_model::specs::Text::keyword))]
pub fn start_line(line: &[u8]) -> Option<Line>
    ensures read { IfSome result (IsLineOf line.now) }
    ensures none { IsNone result → LacksLinesOfStart line.now }
{
    if let Some((volume, ())) = fields_after(line, REPORT) {
        return Some(Line::Report { volume });
    }
    if let Some((volume, ())) = fields_after(line, DXE_VOLUME) {
        return Some(Line::DxeVolume { volume });
    }
    if let Some((volume, (name, (Fixed { value: licence }, ())))) = fields_after(line, PEI_START) {
        return Some(Line::PeiStart {
            volume,
            name,
            licence,
        });
    }
    if let Some((volume, (name, (Fixed { value: licence }, ())))) = fields_after(line, DXE_START) {
        return Some(Line::DxeStart {
            volume,
            name,
            licence,
        });
    }
    None
}
