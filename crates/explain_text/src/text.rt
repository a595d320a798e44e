// The text of an explained boot.
ghost use Rattle.std.specs.Prelude.{◌≡◌, ◌≤◌, ◌++◌, flat_map, length, IfOk, OnOk};
ghost use Rattle.pi_base.specs.declared.phase.Phase.TheVariants.{Pei};
ghost use Rattle.mod_catalog.specs.declared.limits.TheConstants.{MOST_MODULES};
ghost use Rattle.explain_text.specs.{Context.IsContext, HeldLines.held_lines, LeftLines.left_lines, Text.explained_text, Text.is_told};
ghost use Rattle.explain_text.specs.Told.{AreTold, known_in};

use crate::context::{Context, context_of};
use crate::end_lines::put_end;
use crate::flags::{add_held, started};
use crate::held_lines::put_all_held;
use crate::left_lines::put_left;
use crate::reasons::Explained;
use crate::start_lines::put_starts;
use mod_catalog::{Catalog, Module};
use pi_base::{OutOfMemory, Phase, Seq};
use std::alloc::Global;

// The lines of the modules that wait, beside what may be given in PEI.
fn put_waiting_beside(
    alloc: Global,
    out: &mut Seq<u8>,
    modules: &[Module],
    explained: &Explained,
    pei: &Context,
) -> Result<(), OutOfMemory>
    requires short { length modules.now ≤ MOST_MODULES }
    requires given { IsContext explained.now.begun modules.now Pei pei.now }
    ensures { OnOk result (out.new ≡ out.old ++ flat_map (held_lines explained.now.begun modules.now) explained.now.held) }
{
    let dxe = context_of(alloc, explained.begun.as_slice(), modules, Phase::Dxe)?;
    put_all_held(out, pei, &dxe, explained.held.as_slice())
}

// The lines of the modules that wait.
fn put_waiting(
    alloc: Global,
    out: &mut Seq<u8>,
    modules: &[Module],
    explained: &Explained,
) -> Result<(), OutOfMemory>
    requires { length modules.now ≤ MOST_MODULES }
    ensures { OnOk result (out.new ≡ out.old ++ flat_map (held_lines explained.now.begun modules.now) explained.now.held) }
{
    let pei = context_of(alloc, explained.begun.as_slice(), modules, Phase::Pei)?;
    put_waiting_beside(alloc, out, modules, explained, &pei)
}

// The modules that started in a phase or wait at its end.
fn told(
    alloc: Global,
    explained: &Explained,
    phase: Phase,
    count: usize,
) -> Result<Seq<bool>, OutOfMemory>
    ensures { IfOk result (AreTold explained.now phase count) }
{
    let mut flags = started(alloc, explained.begun.as_slice(), phase, count)?;
    add_held(&mut flags, explained.held.as_slice(), phase);
    Ok(flags)
}

// The volumes that a phase knew.
fn known_in(explained: &Explained, phase: Phase) -> &[u32]
    ensures { result.now ≡ known_in explained.now phase }
{
    match phase {
        Phase::Pei => explained.reported.as_slice(),
        Phase::Dxe => explained.discovered.as_slice(),
    }
}

// The lines of the parts of a phase that neither started nor wait.
fn put_rest(
    alloc: Global,
    out: &mut Seq<u8>,
    modules: &[Module],
    explained: &Explained,
    phase: Phase,
) -> Result<(), OutOfMemory>
    requires { length modules.now ≤ MOST_MODULES }
    ensures { OnOk result (out.new
        ≡ out.old ++ left_lines phase (is_told explained.now phase) (known_in explained.now phase) 0 modules.now) }
{
    let told = told(alloc, explained, phase, modules.len())?;
    put_left(
        out,
        phase,
        told.as_slice(),
        known_in(explained, phase),
        modules,
    )?;
    Ok(())
}

/// Adds the lines of an explained boot of a catalogue.
pub fn put_explained(
    alloc: Global,
    out: &mut Seq<u8>,
    catalog: &Catalog,
    explained: &Explained,
) -> Result<(), OutOfMemory>
    requires { length catalog.now.modules ≤ MOST_MODULES }
    ensures { OnOk result (out.new ≡ out.old ++ explained_text catalog.now.modules explained.now) }
{
    let modules = catalog.modules.as_slice();
    put_starts(out, explained.begun.as_slice())?;
    put_waiting(alloc, out, modules, explained)?;
    put_rest(alloc, out, modules, explained, Phase::Pei)?;
    put_rest(alloc, out, modules, explained, Phase::Dxe)?;
    put_end(out, explained)
}
