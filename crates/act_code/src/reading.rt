// Reading a script.
ghost use Rattle.std.specs.Prelude.{◌≤◌, IfOk, IfErr};
ghost use Rattle.act_code.specs.ScriptReading.{Gives, body_at, script_at};
ghost use Rattle.act_code.specs.Script.{IsScript, IsRefused, GivesBack};
ghost use Rattle.act_code.specs.declared.script.Script.{Script};

use crate::block::{Stop, blocks_of, fault};
use crate::fault::{ActCause, ActFault};
use crate::header::{HEADER_LEN, Header, read_header};
use crate::script::Script;
use std::alloc::Global;

// The blocks after a header.
#[tactic(auto, unfolding(crate::specs::ScriptReading::body_at))]
fn body(alloc: Global, header: Header, bytes: &[u8]) -> Result<Script, Stop>
    requires { header.size ≤ 65536 }
    ensures { Gives (λ s. s) result (body_at header bytes.now) }
{
    let (blocks, rest) = blocks_of(alloc, header, bytes)?;
    if rest.is_empty() {
        Ok(Script {
            phase: header.phase,
            blocks,
        })
    } else {
        Err(Stop::Fault(fault(header, ActCause::Count, rest)))
    }
}

// The script, or its first fault.
#[tactic(auto, unfolding(crate::specs::ScriptReading::script_at))]
fn read_all(alloc: Global, bytes: &[u8]) -> Result<Script, Stop>
    ensures { Gives (λ s. s) result (script_at bytes.now) }
{
    let header = read_header(bytes)?;
    body(alloc, header, &bytes[HEADER_LEN..])
}

/// Reads the script that all these bytes are.
///
/// The fault is the first in reading order. At one action `Action` comes first, then `Index`, then `Jump`. A block whose last action is not `ret` is at fault
/// after that action.
pub fn read_script(alloc: Global, bytes: &[u8]) -> Result<Script, ActFault>
    // What is read is spelled so.
    ensures read { IfOk result (IsScript bytes.now) }
    // What is spelled so is read again, unless memory ran out.
    ensures again { (script : Script) → IsScript bytes.now script → GivesBack script result }
    // If nothing is read, this is the first fault, unless memory ran out.
    ensures refused { IfErr result (IsRefused bytes.now) }
{
    match read_all(alloc, bytes) {
        Ok(script) => Ok(script),
        Err(Stop::Fault(fault)) => Err(fault),
        Err(Stop::Memory) => Err(ActFault {
            at: 0,
            cause: ActCause::Memory,
        }),
    }
}
