// The scripts of a module's parts.
ghost use Rattle.std.specs.Prelude.{◌≡◌, []};
ghost use Rattle.pi_base.specs.declared.phase.Phase.TheVariants.{Pei, Dxe};
ghost use Rattle.mod_catalog.specs.ModuleEntry.{script_for};

use act_code::Script;
use pi_base::{Phase, Seq};
use std::alloc::Global;

/// The script of each part.
#[derive(Drop)]
pub(crate) struct PartScripts {
    pub(crate) pei: Script,
    pub(crate) dxe: Script,
}

// A script without blocks.
fn no_script(alloc: Global, phase: Phase) -> Script
    ensures phase { result.phase ≡ phase }
    ensures blocks { result.blocks ≡ [] }
{
    Script {
        phase,
        blocks: Seq::new(alloc),
    }
}

/// Of each phase the first script, or one without blocks.
pub(crate) fn part_scripts(alloc: Global, mut scripts: Seq<Script>) -> PartScripts
    ensures pei { result.pei ≡ script_for Pei scripts }
    ensures dxe { result.dxe ≡ script_for Dxe scripts }
{
    let mut pei = no_script(alloc, Phase::Pei);
    let mut dxe = no_script(alloc, Phase::Dxe);
    'scripts: while let Some(script) = scripts.pop() {
        match script.phase {
            Phase::Pei => pei = script,
            Phase::Dxe => dxe = script,
        }
    }
    PartScripts { pei, dxe }
}
