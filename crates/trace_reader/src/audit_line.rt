// The lines of an audit.
ghost use Rattle.std.specs.Prelude.{IfSome, IsNone};
ghost use Rattle.trace_reader.specs.{Readable.IsLineOf, Lacking.LacksLinesOfAudit};

use crate::field::fields_after;
use crate::hex_word::Kind;
use crate::number::{Decimal, Hexadecimal};
use boot_model::Line;
use boot_trace::keywords::{MODULE, VOLUME};

// The line of a volume or a module.
#[tactic(auto, unfolding(boot_model::specs::Text::keyword))]
pub(crate) fn audit_line(line: &[u8]) -> Option<Line>
    ensures read { IfSome result (IsLineOf line.now) }
    ensures none { IsNone result → LacksLinesOfAudit line.now }
{
    if let Some((volume, (Hexadecimal(base), (Decimal(len), (name, ()))))) = fields_after(
        line, VOLUME,
    ) {
        return Some(Line::Volume {
            volume,
            base,
            len,
            name,
        });
    }
    if let Some(
        (by, (volume, (name, (Kind(kind), (pei_rank, (dxe_rank, (pei, (dxe, ())))))))),
    ) = fields_after(line, MODULE)
    {
        return Some(Line::Module {
            by,
            volume,
            name,
            kind,
            pei_rank,
            dxe_rank,
            pei,
            dxe,
        });
    }
    None
}
