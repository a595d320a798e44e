// The modules that have no script for a phase, found by volume and name.
ghost use Rattle.std.specs.Prelude.{◌≡◌, ℕ, IfOk, OnOk, ◌||◌};
ghost use Rattle.pi_base.specs.declared.guid.Guid.{Guid};
ghost use Rattle.mod_catalog.specs.declared.catalogue.Catalog.{Catalog};
ghost use Rattle.program_edge.specs.Starts.{has_no_script, is_scriptless, is_silent, part_in};
ghost use Rattle.program_edge.specs.Scriptless.{AreOf, AreScriptless, has_name};

use indexmap::IndexSet;
use mod_catalog::{Catalog, Module, Part};
use pi_base::{Guid, OutOfMemory, Phase};
use std::alloc::Global;

/// What a start line says of a module.
#[derive(Clone, Copy, PartialEq, Eq, Hash, Drop)]
pub(crate) struct ModuleName {
    /// The number of its volume.
    pub(crate) volume: u32,
    /// The name of its file.
    pub(crate) name: Guid,
}

/// The modules of a catalogue that have no script for a phase.
#[derive(Drop)]
pub struct Scriptless {
    peims: IndexSet<ModuleName>,
    drivers: IndexSet<ModuleName>,
}

// Whether a part is there, without a script.
fn is_scriptless(part: &Option<Part>) -> bool
    ensures { result ≡ is_scriptless part.now }
{
    match part {
        Some(part) => part.script.blocks.is_empty(),
        None => false,
    }
}

// What a module has for a phase.
fn part_in(entry: &Module, phase: Phase) -> &Option<Part>
    ensures { result.now ≡ part_in phase entry.now }
{
    match phase {
        Phase::Pei => &entry.pei,
        Phase::Dxe => &entry.dxe,
    }
}

// Notes a module if it has a part for a phase without a script.
fn note(names: &mut IndexSet<ModuleName>, entry: &Module, phase: Phase) -> Result<(), OutOfMemory>
    ensures { OnOk result ((volume : ℕ) (name : Guid) → has_name names.new volume name
        ≡ (is_silent phase volume name entry.now || has_name names.old volume name)) }
{
    if !is_scriptless(part_in(entry, phase)) {
        return Ok(());
    }
    let module = ModuleName {
        volume: entry.volume,
        name: entry.name,
    };
    match names.insert(module) {
        Ok(_) => Ok(()),
        Err(_) => Err(OutOfMemory),
    }
}

// The modules without a script for a phase.
#[tactic(auto, using(crate::proofs::Noting::none_noted, crate::proofs::Noting::noted_on, crate::proofs::Noting::all_noted))]
fn without_script(
    alloc: Global,
    modules: &[Module],
    phase: Phase,
) -> Result<IndexSet<ModuleName>, OutOfMemory>
    ensures { IfOk result (AreScriptless phase modules.now) }
{
    let mut names = IndexSet::new(alloc);
    let mut rest = modules;
    'modules: while let [entry, after @ ..] = rest {
        note(&mut names, entry, phase)?;
        rest = after;
    }
    Ok(names)
}

impl Scriptless {
    /// Those of a catalogue. It fails only if memory runs out.
    pub fn of(alloc: Global, catalog: &Catalog) -> Result<Scriptless, OutOfMemory>
        ensures { IfOk result (AreOf catalog.now) }
    {
        let modules = catalog.modules.as_slice();
        let peims = without_script(alloc, modules, Phase::Pei)?;
        let drivers = without_script(alloc, modules, Phase::Dxe)?;
        Ok(Scriptless { peims, drivers })
    }

    /// Whether a module of a volume and name is such a one.
    pub(crate) fn has(&self, phase: Phase, volume: u32, name: Guid) -> bool
        ensures { (catalog : Catalog) → AreOf catalog self.now → result ≡ has_no_script catalog phase volume name }
    {
        let names = match phase {
            Phase::Pei => &self.peims,
            Phase::Dxe => &self.drivers,
        };
        names.contains(&ModuleName { volume, name })
    }
}
