// The GUIDs that a dependency expression pushes and that are not installed.
ghost use Rattle.std.specs.Prelude.{◌≡◌, [], IfOk, OnOk};
ghost use Rattle.store_model.specs.{Service.Present, Service.OfEach, StoreCall.Anything};
ghost use Rattle.boot_laws.specs.ChangedGuids.{is_among};
ghost use Rattle.recorded_boot.specs.Against.{is_installed, lacking, pushed_in};
ghost use Rattle.recorded_boot.specs.Code.{code_in, lacking_from, more_lacking, once_more};

use depex_code::{Depex, GuidSet, Opcode};
use dxe_core::database::Handles;
use mod_catalog::PartExpr;
use pi_base::{Guid, OutOfMemory, Phase, Seq};
use std::alloc::Global;
use store_model::PeiStore;

/// What is installed in the boot so far: its PPIs are in the store, its protocols on the handles.
#[derive(Drop)]
pub(crate) struct Installed<'i, M> {
    /// The store.
    pub(crate) store: &'i M,
    /// The handles.
    pub(crate) handles: &'i Handles,
}

// Whether a GUID is installed for modules of a phase.
fn is_installed<M: PeiStore>(installed: &Installed<'_, M>, phase: Phase, guid: &Guid) -> bool
    requires state { Present (M.stands_for installed.now.store.now) Anything }
    ensures { OfEach (M.stands_for installed.now.store.now) Anything
        (λ s. result ≡ is_installed phase s installed.now.handles.now guid.now) }
{
    match phase {
        Phase::Pei => installed.store.nth_ppi(guid, 0).is_some(),
        Phase::Dxe => installed.handles.has(guid),
    }
}

// Whether a GUID is one of these.
fn is_among(guid: &Guid, guids: &[Guid]) -> bool
    ensures { result ≡ is_among guid.now guids.now }
{
    let mut rest = guids;
    'guids: while let [other, after @ ..] = rest {
        if *other == *guid {
            return true;
        }
        rest = after;
    }
    false
}

// Notes a GUID, unless it was noted before.
fn note(found: &mut Seq<Guid>, guid: &Guid) -> Result<(), OutOfMemory>
    ensures { OnOk result (found.new ≡ once_more found.old guid.now) }
{
    if is_among(guid, found.as_slice()) {
        return Ok(());
    }
    found.push(*guid)
}

// Notes the GUID that an opcode pushes, if it is not installed.
fn note_pushed<M: PeiStore>(
    found: &mut Seq<Guid>,
    installed: &Installed<'_, M>,
    phase: Phase,
    opcode: &Opcode,
) -> Result<(), OutOfMemory>
    requires state { Present (M.stands_for installed.now.store.now) Anything }
    ensures { OfEach (M.stands_for installed.now.store.now) Anything
        (λ s. OnOk result (found.new ≡ more_lacking (is_installed phase s installed.now.handles.now) found.old opcode.now)) }
{
    if let Opcode::Push(guid) = opcode {
        if !is_installed(installed, phase, guid) {
            note(found, guid)?;
        }
    }
    Ok(())
}

// The opcodes of an expression that is a tree.
fn code_in(expr: &PartExpr) -> &[Opcode]
    ensures { result.now ≡ code_in expr.now }
{
    match expr {
        PartExpr::Absent | PartExpr::Malformed(_) => &[],
        PartExpr::Held(expression) => match expression {
            Depex::Before(_) | Depex::After(_) => &[],
            Depex::Expr { tree, .. } => tree.code(),
        },
    }
}

// The GUIDs that opcodes push and that are not installed.
fn lacking_in<M: PeiStore>(
    alloc: Global,
    installed: &Installed<'_, M>,
    phase: Phase,
    code: &[Opcode],
) -> Result<Seq<Guid>, OutOfMemory>
    requires state { Present (M.stands_for installed.now.store.now) Anything }
    ensures { OfEach (M.stands_for installed.now.store.now) Anything
        (λ s. IfOk result (λ found. found ≡ lacking_from (is_installed phase s installed.now.handles.now) [] code.now)) }
{
    let mut found = Seq::new(alloc);
    let mut rest = code;
    'opcodes: while let [opcode, after @ ..] = rest {
        note_pushed(&mut found, installed, phase, opcode)?;
        rest = after;
    }
    Ok(found)
}

/// The GUIDs that an expression pushes and that are not installed in a phase, each once, in the order of first mention.
pub(crate) fn lacking<M: PeiStore>(
    alloc: Global,
    installed: &Installed<'_, M>,
    phase: Phase,
    expr: &PartExpr,
) -> Result<Seq<Guid>, OutOfMemory>
    requires state { Present (M.stands_for installed.now.store.now) Anything }
    ensures { OfEach (M.stands_for installed.now.store.now) Anything
        (λ s. IfOk result (λ found. found ≡ lacking (is_installed phase s installed.now.handles.now) (pushed_in expr.now))) }
{
    lacking_in(alloc, installed, phase, code_in(expr))
}
