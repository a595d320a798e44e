//! The lines that are starts.
ghost use Rattle.std.specs.Prelude.{◌≡◌};
ghost use Rattle.recorded_boot.specs.Starts as S;

use crate::order::Start;
use boot_model::Line;
use pi_base::Phase;

/// The start that a line prints. None if it is not a start line.
pub fn start_of(line: &Line) -> Option<Start>
    ensures { result ≡ S.start_of line.now }
{
    match line {
        Line::PeiStart { volume, name, .. } => Some(Start {
            phase: Phase::Pei,
            volume: *volume,
            name: *name,
        }),
        Line::DxeStart { volume, name, .. } => Some(Start {
            phase: Phase::Dxe,
            volume: *volume,
            name: *name,
        }),
        _ => None,
    }
}
