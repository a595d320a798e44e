// The lines of refusals, but for those of files.
ghost use Rattle.std.specs.Prelude.{IfSome, IsNone};
ghost use Rattle.trace_reader.specs.{Readable.IsLineOf, Lacking.LacksLinesOfRefusal};

use crate::field::fields_after;
use crate::fixed_word::Fixed;
use crate::number::Decimal;
use boot_model::Line;
use boot_trace::keywords::{REFUSED_IMAGE, REFUSED_PLAN, REFUSED_USAGE};

// The line of a refusal that names no file.
#[tactic(auto, unfolding(boot_model::specs::Text::keyword))]
pub(crate) fn refusal_line(line: &[u8]) -> Option<Line>
    ensures read { IfSome result (IsLineOf line.now) }
    ensures none { IsNone result → LacksLinesOfRefusal line.now }
{
    if let Some(()) = fields_after(line, REFUSED_USAGE) {
        return Some(Line::RefusedUsage);
    }
    if let Some((line, (Fixed { value: cause }, ()))) = fields_after(line, REFUSED_PLAN) {
        return Some(Line::RefusedPlan { line, cause });
    }
    if let Some((volume, (Decimal(at), (Fixed { value: cause }, ())))) = fields_after(
        line,
        REFUSED_IMAGE,
    ) {
        return Some(Line::RefusedImage { volume, at, cause });
    }
    None
}
