// The start of a script: a module's, or a notification's.
ghost use Rattle.std.specs.Prelude.{◌≡◌, [], ◌∷◌, length, nat_le, not, if◌then◌else◌};
ghost use Rattle.phase_parts.specs.{Frames.start_frames, Frames.swept, Found.blocks_of, Found.has_block};

use crate::found::part_of;
use crate::frame::frame_at;
use crate::stack::Frames;
use boot_model::{Frame, MOST_FRAMES, REGISTERS, Register};
use mod_catalog::Catalog;
use pi_base::Phase;

// Whether a module's script has a block.
fn has_block(catalog: &Catalog, phase: Phase, number: u32) -> bool
    ensures { result ≡ has_block (blocks_of phase catalog.now number) }
{
    match part_of(catalog, phase, number) {
        Some(part) => !part.script.blocks.is_empty(),
        None => false,
    }
}

/// Begins a module's script, unless it has no block, and returns whether it has one.
pub fn begin_script<W: Copy>(
    frames: &mut Frames<W>,
    catalog: &Catalog,
    phase: Phase,
    number: u32,
) -> bool
    requires none { frames.old ≡ [] }
    ensures frames { frames.new ≡ start_frames number (blocks_of phase catalog.now number) }
    ensures runs { result ≡ has_block (blocks_of phase catalog.now number) }
{
    let runs = has_block(catalog, phase, number);
    if runs {
        frames.begin(frame_at(number, 0, [Register::Empty; REGISTERS]));
    }
    runs
}

/// Begins a notification of the top frame's call, which has visited what is before `sweep`, unless the most frames are running. Returns whether it begins.
pub fn begin_notification<W: Copy>(frames: &mut Frames<W>, notification: Frame<W>, sweep: W) -> bool
    ensures room { result ≡ not (nat_le MOST_FRAMES (length frames.old)) }
    ensures frames { frames.new ≡ (if result then notification ∷ swept frames.old sweep else frames.old) }
{
    if frames.is_full() {
        return false;
    }
    frames.keep_sweep(sweep);
    frames.begin(notification);
    true
}
