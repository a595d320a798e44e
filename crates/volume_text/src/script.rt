// A script whose lines are read one by one.
ghost use Rattle.std.specs.Prelude.{◌≡◌, Ok, IfOk, OnOk};
ghost use Rattle.source_words.specs.Script.{AreSaid, IsSaid};
ghost use Rattle.volume_text.specs.Reading.{Gives, Answers};
ghost use Rattle.volume_text.specs.Script.{with_block, action_at, with_action, line_at, IsScriptBody};

use crate::fault::{Cause, Fault, Stop, TextFault};
use act_code::{Action, Script};
use pi_base::{Phase, Seq};
use source_words::script::{ScriptCause, ScriptFault, read_action, whole_script};
use std::alloc::Global;

/// Gives the script one more block.
pub(crate) fn add_block(alloc: Global, script: &mut Script) -> Result<(), Stop>
    requires said { AreSaid script.old }
    ensures made { Gives (λ _. script.new) result (Ok (with_block script.old)) }
    ensures said { OnOk result (AreSaid script.new) }
{
    script.blocks.push(Seq::new(alloc))?;
    Ok(())
}

// The action that a line of a script of a phase says.
fn action(alloc: Global, phase: Phase, line: &[u8]) -> Result<Action, Stop>
    ensures made { Gives (λ x. x) result (action_at phase line.now) }
    ensures said { IfOk result (IsSaid phase) }
{
    match read_action(alloc, phase, line) {
        Ok(action) => Ok(action),
        Err(source_words::script::Stop::Fault(fault)) => Err(Stop::Fault(Cause::Action(fault))),
        Err(source_words::script::Stop::Memory) => Err(Stop::Memory),
    }
}

/// Gives the last block of the script one more action.
#[tactic(auto, using(crate::proofs::Lasts::last_push))]
pub(crate) fn add_action(alloc: Global, script: &mut Script, line: &[u8]) -> Result<(), Stop>
    requires said { AreSaid script.old }
    ensures made { Gives (λ _. script.new) result (with_action script.old line.now) }
    ensures said { OnOk result (AreSaid script.new) }
{
    let Some(mut last) = script.blocks.pop() else {
        return Err(Stop::Fault(Cause::Script(ScriptCause::NoBlock)));
    };
    match action(alloc, script.phase, line) {
        Ok(action) => {
            last.push(action)?;
            script.blocks.push(last)?;
            Ok(())
        }
        Err(stop) => {
            drop(last);
            Err(stop)
        }
    }
}

// The text's line of a script's line at a place: the script's end stands behind its lines.
fn line_at(lines: &[u64], end: u64, place: usize) -> u64
    ensures { result ≡ line_at lines.now end place }
{
    match lines.get(place) {
        Some(line) => *line,
        None => end,
    }
}

/// The bytes of a script at its `end`.
pub(crate) fn script_body(
    alloc: Global,
    script: &Script,
    lines: &[u64],
    end: u64,
) -> Result<Seq<u8>, TextFault>
    requires { AreSaid script.now }
    ensures { Answers (IsScriptBody script.now lines.now end) result }
{
    match whole_script(alloc, script) {
        Ok(bytes) => Ok(bytes),
        Err(ScriptFault::Bad { place, cause }) => Err(TextFault::Bad(Fault {
            line: line_at(lines, end, place),
            cause: Cause::Script(cause),
        })),
        Err(ScriptFault::TooLong) => Err(TextFault::Bad(Fault {
            line: end,
            cause: Cause::ScriptTooLong,
        })),
        Err(ScriptFault::Memory) => Err(TextFault::Memory),
    }
}
