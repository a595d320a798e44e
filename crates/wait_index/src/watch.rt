// The GUIDs that expressions push: first each has its slot, then each slot has the modules that push its GUID.
ghost use Rattle.std.specs.Prelude.{◌≡◌, ◌≤◌, ◌<◌, [], false, Some, length, slice_set, if◌then◌else◌, IfOk, OnOk};
ghost use Rattle.pi_base.specs.{GuidMap.value_of, Guids.same_guid, Lists.EachPair};
ghost use Rattle.mod_catalog.specs.declared.limits.TheConstants.{MOST_MODULES};
ghost use Rattle.wait_index.specs.Index.{watchers_at};
ghost use Rattle.wait_index.specs.Watching.{IsNumbering, Covers, code_in, module_code, code_pushes, opcode_pushes, modules_push, ends_with, noted, noted_by, noted_from, IsBelow, AreApart, AreNoted};

use depex_code::{Depex, Opcode};
use mod_catalog::{Module, PartExpr};
use pi_base::{Guid, GuidMap, OutOfMemory, Phase, Seq};
use std::alloc::Global;

/// Slots by GUID, and of each slot the modules that push its GUID.
#[derive(Drop)]
pub(crate) struct Watch {
    pub(crate) slots: GuidMap<usize>,
    pub(crate) watchers: Seq<Seq<u32>>,
}

// The opcodes of an expression that is a tree.
fn code_in(expr: &PartExpr) -> &[Opcode]
    ensures { result.now ≡ code_in expr.now }
{
    match expr {
        PartExpr::Absent => &[],
        PartExpr::Malformed(_) => &[],
        PartExpr::Held(Depex::Before(_)) => &[],
        PartExpr::Held(Depex::After(_)) => &[],
        PartExpr::Held(Depex::Expr { tree, .. }) => tree.code(),
    }
}

// The opcodes of a module's part.
pub(crate) fn module_code(phase: Phase, member: &Module) -> &[Opcode]
    ensures { result.now ≡ module_code phase member.now }
{
    match phase {
        Phase::Pei => match &member.pei {
            Some(part) => code_in(&part.expr),
            None => &[],
        },
        Phase::Dxe => match &member.dxe {
            Some(part) => code_in(&part.expr),
            None => &[],
        },
    }
}

impl Watch {
    /// No slots. It takes no memory.
    pub(crate) fn new(alloc: Global) -> Watch
        ensures { IsNumbering result }
    {
        Watch {
            slots: GuidMap::new(alloc),
            watchers: Seq::new(alloc),
        }
    }

    /// The slot of a GUID, or a new one if it has none.
    pub(crate) fn slot_for(&mut self, alloc: Global, guid: &Guid) -> Result<usize, OutOfMemory>
        requires { IsNumbering self.old }
        ensures numbering { OnOk result (IsNumbering self.new) }
        ensures covers { OnOk result (Covers (same_guid guid.now) self.old self.new) }
        ensures slot { IfOk result (λ slot. value_of self.new.slots guid.now ≡ Some slot) }
    {
        if let Some(slot) = self.slots.get(guid) {
            return Ok(slot);
        }
        let slot = self.watchers.len();
        self.slots.insert(*guid, slot)?;
        self.watchers.push(Seq::new(alloc))?;
        Ok(slot)
    }

    /// Each of these GUIDs has a slot; these are the slots.
    pub(crate) fn number_guids(
        &mut self,
        alloc: Global,
        guids: &[Guid],
    ) -> Result<Seq<usize>, OutOfMemory>
        requires { IsNumbering self.old }
        ensures numbering { OnOk result (IsNumbering self.new) }
        ensures kept { OnOk result (Covers (λ guid. false) self.old self.new) }
        ensures slots { IfOk result (EachPair (λ guid slot. value_of self.new.slots guid ≡ Some slot) guids.now) }
    {
        let mut slots = Seq::new(alloc);
        'guids: for guid in guids {
            let slot = self.slot_for(alloc, guid)?;
            slots.push(slot)?;
        }
        Ok(slots)
    }

    // The GUID of an opcode has a slot.
    fn number_opcode(&mut self, alloc: Global, opcode: &Opcode) -> Result<(), OutOfMemory>
        requires { IsNumbering self.old }
        ensures numbering { OnOk result (IsNumbering self.new) }
        ensures covers { OnOk result (Covers (λ guid. opcode_pushes guid opcode.now) self.old self.new) }
    {
        if let Opcode::Push(guid) = opcode {
            self.slot_for(alloc, guid)?;
        }
        Ok(())
    }

    // The GUIDs that opcodes push have slots.
    fn number_code(&mut self, alloc: Global, code: &[Opcode]) -> Result<(), OutOfMemory>
        requires { IsNumbering self.old }
        ensures numbering { OnOk result (IsNumbering self.new) }
        ensures covers { OnOk result (Covers (λ guid. code_pushes guid code.now) self.old self.new) }
    {
        let mut rest = code;
        'opcodes: while let [opcode, after @ ..] = rest {
            self.number_opcode(alloc, opcode)?;
            rest = after;
        }
        Ok(())
    }

    /// The GUIDs that the parts of these modules push have slots.
    pub(crate) fn number_modules(
        &mut self,
        alloc: Global,
        phase: Phase,
        modules: &[Module],
    ) -> Result<(), OutOfMemory>
        requires { IsNumbering self.old }
        ensures numbering { OnOk result (IsNumbering self.new) }
        ensures covers { OnOk result (Covers (λ guid. modules_push phase guid modules.now) self.old self.new) }
    {
        let mut rest = modules;
        'modules: while let [member, after @ ..] = rest {
            self.number_code(alloc, module_code(phase, member))?;
            rest = after;
        }
        Ok(())
    }
}

// Whether a list ends with a number.
fn ends_with(list: &[u32], number: u32) -> bool
    ensures { result ≡ ends_with list.now number }
{
    match list.last() {
        Some(last) => *last == number,
        None => false,
    }
}

// A module watches a slot, once.
pub(crate) fn note(lists: &mut Vec<Seq<u32>>, slot: usize, number: u32) -> Result<(), OutOfMemory>
    requires { slot < length lists.old.items }
    ensures { OnOk result (lists.new.items ≡ slice_set lists.old.items slot (noted (watchers_at lists.old.items slot) number)) }
{
    if ends_with(lists[slot].as_slice(), number) {
        return Ok(());
    }
    lists[slot].push(number)
}

// The module of an opcode watches the GUID that it pushes.
fn note_opcode(
    lists: &mut Vec<Seq<u32>>,
    slots: &GuidMap<usize>,
    opcode: &Opcode,
    number: u32,
) -> Result<(), OutOfMemory>
    requires below { IsBelow slots.now (length lists.old.items) }
    requires apart { AreApart slots.now }
    ensures { OnOk result (AreNoted slots.now (λ guid list. if opcode_pushes guid opcode.now then noted list number else list)
        lists.old.items lists.new.items) }
{
    if let Opcode::Push(guid) = opcode {
        if let Some(slot) = slots.get(guid) {
            note(lists, slot, number)?;
        }
    }
    Ok(())
}

// The module of these opcodes watches the GUIDs that they push.
fn note_code(
    lists: &mut Vec<Seq<u32>>,
    slots: &GuidMap<usize>,
    code: &[Opcode],
    number: u32,
) -> Result<(), OutOfMemory>
    requires below { IsBelow slots.now (length lists.old.items) }
    requires apart { AreApart slots.now }
    ensures { OnOk result (AreNoted slots.now (λ guid list. noted_by guid number list code.now) lists.old.items lists.new.items) }
{
    let mut rest = code;
    'opcodes: while let [opcode, after @ ..] = rest {
        note_opcode(lists, slots, opcode, number)?;
        rest = after;
    }
    Ok(())
}

/// Each of these modules watches the GUIDs that its part pushes.
pub(crate) fn note_modules(
    lists: &mut Vec<Seq<u32>>,
    slots: &GuidMap<usize>,
    phase: Phase,
    modules: &[Module],
) -> Result<(), OutOfMemory>
    requires below { IsBelow slots.now (length lists.old.items) }
    requires apart { AreApart slots.now }
    requires few { length modules.now ≤ MOST_MODULES }
    ensures { OnOk result (AreNoted slots.now (λ guid list. noted_from phase guid 0 list modules.now) lists.old.items lists.new.items) }
{
    let mut rest = modules;
    let mut number = 0;
    'modules: while let [member, after @ ..] = rest {
        note_code(lists, slots, module_code(phase, member), number)?;
        number += 1;
        rest = after;
    }
    Ok(())
}
