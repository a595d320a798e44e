// Writing a script.
ghost use Rattle.std.specs.Prelude.{◌≡◌, ◌<◌, ◌++◌, length, OnOk, IfOk, IfErr, All, flat_map};
ghost use Rattle.act_code.specs.Header.{phase_byte, header_bytes};
ghost use Rattle.act_code.specs.Script.{block_bytes, script_bytes, IsWritable, IsWritableBlock, IsInGrammar, IsScript};
ghost use Rattle.act_code.specs.declared.fault.WriteFault.TheVariants as write_fault;

use crate::action::Action;
use crate::action_writing::{bytes_2, put_action};
use crate::fault::WriteFault;
use crate::header::{DXE, HEADER_LEN, MAGIC, MOST_SCRIPT, PEI, VERSION};
use crate::script::Script;
use pi_base::{OutOfMemory, Phase, Seq};
use std::alloc::Global;

// The byte of a phase.
fn phase_byte(phase: Phase) -> u8
    ensures { result ≡ phase_byte phase }
{
    match phase {
        Phase::Pei => PEI,
        Phase::Dxe => DXE,
    }
}

// The header of a script of so many blocks.
fn header_bytes(phase: Phase, blocks: u8) -> [u8; HEADER_LEN]
    ensures { result ≡ header_bytes phase blocks }
{
    [
        MAGIC[0],
        MAGIC[1],
        MAGIC[2],
        MAGIC[3],
        VERSION,
        phase_byte(phase),
        blocks,
        0,
    ]
}

// Adds the bytes of a block.
fn put_block(out: &mut Seq<u8>, actions: &[Action]) -> Result<(), OutOfMemory>
    requires few { length actions.now < 65536 }
    requires writable { All IsWritable actions.now }
    ensures { OnOk result (out.new ≡ out.old ++ block_bytes actions.now) }
{
    out.append(&bytes_2(actions.len() as u16))?;
    for action in actions {
        put_action(out, action)?;
    }
    Ok(())
}

// Adds the bytes of blocks.
fn put_blocks(out: &mut Seq<u8>, blocks: &[Seq<Action>]) -> Result<(), OutOfMemory>
    requires { All IsWritableBlock blocks.now }
    ensures { OnOk result (out.new ≡ out.old ++ flat_map block_bytes blocks.now) }
{
    for actions in blocks {
        put_block(out, actions.as_slice())?;
    }
    Ok(())
}

// Adds the bytes of a script of so many blocks.
fn put_script(out: &mut Seq<u8>, script: &Script) -> Result<(), OutOfMemory>
    requires { IsInGrammar script.now }
    ensures { OnOk result (out.new ≡ out.old ++ script_bytes script.now) }
{
    out.append(&header_bytes(script.phase, script.blocks.len() as u8))?;
    put_blocks(out, script.blocks.as_slice())
}

/// The one spelling of a script, which `read_script` reads as the same script. It returns `TooLong` exactly if the script has more than 65,536 bytes.
pub fn write_script(alloc: Global, script: &Script) -> Result<Seq<u8>, WriteFault>
    requires { IsInGrammar script.now }
    ensures written { IfOk result (λ text. text ≡ script_bytes script.now) }
    ensures script { IfOk result (λ text. IsScript text script.now) }
    ensures too_long { IfErr result (λ fault. fault ≡ write_fault.TooLong → 65536 < length (script_bytes script.now)) }
{
    let mut out = Seq::new(alloc);
    let put = put_script(&mut out, script);
    if put.is_ok() && out.len() <= MOST_SCRIPT {
        return Ok(out);
    }
    drop(out);
    match put {
        Ok(()) => Err(WriteFault::TooLong),
        Err(OutOfMemory) => Err(WriteFault::Memory),
    }
}
