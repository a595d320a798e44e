// The text of a script.
ghost use Rattle.std.specs.Prelude.{◌≡◌, ◌++◌, flat_map, OnOk, IfOk};
ghost use Rattle.asm_text.specs.ScriptText.{line, phase_text, block_text, block_lines, script_text};

use crate::action_text::put_action;
use act_code::{Action, Script};
use line_words::printed::LINE_FEED;
use pi_base::{OutOfMemory, Phase, Seq};
use std::alloc::Global;

// The text of the line with the phase.
#[tactic(auto, unfolding(crate::specs::ScriptText::phase_text))]
pub(crate) fn phase_text(phase: Phase) -> &'static [u8]
    ensures { result.now ≡ phase_text phase }
{
    match phase {
        Phase::Pei => b"phase pei",
        Phase::Dxe => b"phase dxe",
    }
}

// The text of the line that begins a block.
#[tactic(auto, unfolding(crate::specs::ScriptText::block_text))]
pub(crate) fn block_text() -> &'static [u8]
    ensures { result.now ≡ block_text }
{
    b"block"
}

// Adds a line.
fn put_line(out: &mut Seq<u8>, text: &[u8]) -> Result<(), OutOfMemory>
    ensures { OnOk result (out.new ≡ out.old ++ line text.now) }
{
    out.append(text)?;
    out.push(LINE_FEED)
}

// Adds the lines of a block.
fn put_block(out: &mut Seq<u8>, actions: &[Action]) -> Result<(), OutOfMemory>
    ensures { OnOk result (out.new ≡ out.old ++ block_lines actions.now) }
{
    put_line(out, block_text())?;
    for action in actions {
        put_action(out, action)?;
    }
    Ok(())
}

// Adds the lines of blocks.
fn put_blocks(out: &mut Seq<u8>, blocks: &[Seq<Action>]) -> Result<(), OutOfMemory>
    ensures { OnOk result (out.new ≡ out.old ++ flat_map block_lines blocks.now) }
{
    for actions in blocks {
        put_block(out, actions.as_slice())?;
    }
    Ok(())
}

/// The text of a script: a line with its phase, and for each block the line `block` and a line for each action.
pub fn print_script(alloc: Global, script: &Script) -> Result<Seq<u8>, OutOfMemory>
    ensures { IfOk result (λ text. text ≡ script_text script.now) }
{
    let mut out = Seq::new(alloc);
    put_line(&mut out, phase_text(script.phase))?;
    put_blocks(&mut out, script.blocks.as_slice())?;
    Ok(out)
}
