// The GUIDs that a script may install.
ghost use Rattle.std.specs.Prelude.{◌≡◌, ◌++◌, ◌∷◌, [], List, IfOk, OnOk, option_to_list};
ghost use Rattle.std.specs.List.{list_any};
ghost use Rattle.pi_base.specs.declared.guid.Guid.{Guid as Name};
ghost use Rattle.explain_text.specs.Gives.{AreMet, given_in, gives_any, named_by, named_in_all, named_in_block, reads_guid};

use act_code::descriptor_kind::PPI;
use act_code::{Action, GuidArg, Script};
use pi_base::{Guid, GuidMap, OutOfMemory, Seq};
use std::alloc::Global;

/// The GUIDs that some actions name, each once.
#[derive(Drop)]
pub(crate) struct Met {
    /// In the order of their first mention.
    pub(crate) guids: Seq<Guid>,
    pub(crate) known: GuidMap<bool>,
}

// The GUID of what an action may install, where the action names it.
fn named_by(action: &Action) -> Option<Guid>
    ensures { result ≡ named_by action.now }
{
    match action {
        Action::Desc {
            kind,
            guid: GuidArg::Inline(guid),
            ..
        } => { if *kind == PPI { Some(*guid) } else { None } }
        Action::DxeInstall { guid, .. } | Action::DxeReinstall { guid, .. } => Some(*guid),
        _ => None,
    }
}

// Whether an action makes a PPI's descriptor whose GUID it reads.
fn reads_guid(action: &Action) -> bool
    ensures { result ≡ reads_guid action.now }
{
    match action {
        Action::Desc {
            kind,
            guid: GuidArg::Register(_),
            ..
        } => *kind == PPI,
        _ => false,
    }
}

// Whether an action of a block does.
fn block_reads(actions: &Seq<Action>) -> bool
    ensures { result ≡ list_any reads_guid actions.now }
{
    actions.as_slice().iter().any(reads_guid)
}

/// Whether a script may install what it does not name: a PPI whose GUID it reads in a volume.
pub(crate) fn gives_any(script: &Script) -> bool
    ensures { result ≡ gives_any script.now }
{
    script.blocks.as_slice().iter().any(block_reads)
}

// One GUID more.
fn meet(met: &mut Met, guid: Guid) -> Result<(), OutOfMemory>
    ensures { OnOk result ((before : List Name) → AreMet before met.old → AreMet (before ++ guid ∷ []) met.new) }
{
    if met.known.contains_key(&guid) {
        return Ok(());
    }
    met.known.insert(guid, true)?;
    met.guids.push(guid)?;
    Ok(())
}

// The GUID that an action names, where it names one.
fn meet_action(met: &mut Met, action: &Action) -> Result<(), OutOfMemory>
    ensures { OnOk result ((before : List Name) → AreMet before met.old
        → AreMet (before ++ option_to_list (named_by action.now)) met.new) }
{
    match named_by(action) {
        Some(guid) => meet(met, guid),
        None => Ok(()),
    }
}

// Those of a block.
fn meet_block(met: &mut Met, actions: &[Action]) -> Result<(), OutOfMemory>
    ensures { OnOk result
        ((before : List Name) → AreMet before met.old → AreMet (before ++ named_in_block actions.now) met.new) }
{
    'actions: for action in actions {
        meet_action(met, action)?;
    }
    Ok(())
}

// Those of blocks.
fn meet_all(met: &mut Met, blocks: &[Seq<Action>]) -> Result<(), OutOfMemory>
    ensures { OnOk result ((before : List Name) → AreMet before met.old → AreMet (before ++ named_in_all blocks.now) met.new) }
{
    'scripts: for actions in blocks {
        meet_block(met, actions.as_slice())?;
    }
    Ok(())
}

/// The GUIDs that a script names of what it may install, each once, in the order of their first mention: of the descriptors of PPIs that it makes in PEI, and of the protocols that it installs in DXE.
pub fn given_in(alloc: Global, script: &Script) -> Result<Seq<Guid>, OutOfMemory>
    ensures { IfOk result (λ guids. guids ≡ given_in script.now) }
{
    let mut met = Met {
        guids: Seq::new(alloc),
        known: GuidMap::new(alloc),
    };
    meet_all(&mut met, script.blocks.as_slice())?;
    Ok(met.guids)
}
