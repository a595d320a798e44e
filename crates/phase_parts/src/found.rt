// The next action of a frame.
ghost use Rattle.std.specs.Prelude.{◌≡◌, option_copied};
ghost use Rattle.mod_catalog.specs.Parts.{part_at};
ghost use Rattle.phase_parts.specs.Found.{found_action};

use act_code::Action;
use boot_model::Frame;
use mod_catalog::{Catalog, Part};
use pi_base::Phase;

/// The part that a module has for a phase. None if it has no such part, or there is no such module.
pub fn part_of<'a>(catalog: &'a Catalog, phase: Phase, number: u32) -> Option<&'a Part>
    ensures { option_copied result ≡ part_at phase catalog.now number }
{
    match catalog.modules.as_slice().get(number as usize) {
        Some(module) => match phase {
            Phase::Pei => module.pei.as_ref(),
            Phase::Dxe => module.dxe.as_ref(),
        },
        None => None,
    }
}

/// The next action of a frame. None after the end of its block, and if there is no such block.
pub fn action_at<'a, W>(catalog: &'a Catalog, phase: Phase, frame: &Frame<W>) -> Option<&'a Action>
    ensures { option_copied result ≡ found_action phase catalog.now frame.now }
{
    let part = part_of(catalog, phase, frame.module_number)?;
    let block = part.script.blocks.as_slice().get(frame.block as usize)?;
    block.as_slice().get(frame.position as usize)
}
