// What the lines of modules that wait ask of a phase.
ghost use Rattle.std.specs.Prelude.{◌≤◌, IfOk, length};
ghost use Rattle.mod_catalog.specs.declared.limits.TheConstants.{MOST_MODULES};
ghost use Rattle.explain_text.specs.Context.{IsContext};

use crate::flags::started;
use crate::givers::{Givers, givers_of};
use crate::reasons::Begun;
use mod_catalog::Module;
use pi_base::{OutOfMemory, Phase, Seq};
use std::alloc::Global;

/// Which modules may install a GUID in a phase, and which started in it.
#[derive(Drop)]
pub(crate) struct Context {
    pub(crate) givers: Givers,
    pub(crate) started: Seq<bool>,
}

/// Those of a phase.
pub(crate) fn context_of(
    alloc: Global,
    begun: &[Begun],
    modules: &[Module],
    phase: Phase,
) -> Result<Context, OutOfMemory>
    requires { length modules.now ≤ MOST_MODULES }
    ensures { IfOk result (IsContext begun.now modules.now phase) }
{
    Ok(Context {
        givers: givers_of(alloc, phase, modules)?,
        started: started(alloc, begun, phase, modules.len())?,
    })
}
