// Scripts whose lines are read one by one.
ghost use Rattle.std.specs.Prelude.{◌≡◌, ◌≤◌, [], length, IfOk, IfErr, IfSome};
ghost use Rattle.source_words.specs.Script.{AreSaid, IsUnfit, IsWhole, action_cause, action_causes, may_end, block_cause, block_causes, end_cause, causes_behind, first_fault};

use act_code::{Action, Script, WriteFault, ends_in_ret, has_room, names_below, write_script};
use pi_base::Seq;
use std::alloc::Global;
use std::fmt::{self, Display, Formatter};
use thiserror::Error;

/// The most blocks of a script.
const MOST_BLOCKS: usize = act_code::MOST_BLOCKS as usize;

/// The most actions of a block.
const MOST_ACTIONS: usize = act_code::MOST_ACTIONS as usize;

/// What is wrong at a line of a script, `block` or an action, or at its end.
#[derive(Clone, Copy, Debug, PartialEq, Eq, Error)]
pub enum ScriptCause {
    /// At the end: the script has no block.
    NoBlock,
    /// At a line `block` or at the end: the block before it has no `ret` as its last action.
    NoRet,
    /// At an action: it skips past the last action of its block.
    Jump,
    /// At an action: it names a block that the script does not have.
    NoSuchBlock,
    /// At a line `block`: it would be the 65th; at an action: it would be the 1,025th of its block.
    Full,
}

impl Display for ScriptCause {
    fn fmt<W: fmt::Write>(&self, f: &mut Formatter<W>) -> fmt::Result {
        write!(f, "{self:?}")
    }
}

/// Why a draft is no script.
#[derive(Clone, Copy, Debug, PartialEq, Eq)]
pub enum ScriptFault {
    /// What is wrong at a line. The place counts the script's lines from 0: each block's own line, and then those of its actions. The end stands behind them all.
    Bad { place: usize, cause: ScriptCause },
    /// The script would have more than 65,536 bytes.
    TooLong,
    /// Want of memory.
    Memory,
}

// What is wrong with an action behind so many others of its block, where so many are left with itself.
fn action_cause(count: usize, before: usize, left: usize, action: &Action) -> Option<ScriptCause>
    ensures { result ≡ action_cause count before left action.now }
{
    if MOST_ACTIONS <= before {
        Some(ScriptCause::Full)
    } else if !has_room(action, left) {
        Some(ScriptCause::Jump)
    } else if !names_below(action, count) {
        Some(ScriptCause::NoSuchBlock)
    } else {
        None
    }
}

// The first action of a block at which something is wrong.
fn action_fault(count: usize, actions: &[Action]) -> Option<(usize, ScriptCause)>
    ensures first { result ≡ first_fault 0 (action_causes count 0 actions.now) }
    ensures near { IfSome result (λ fault. fault.0 ≤ 1024) }
{
    'actions: for (index, action) in actions.iter().enumerate() {
        if let Some(cause) = action_cause(count, index, actions.len() - index, action) {
            return Some((index, cause));
        }
    }
    None
}

// Whether the last of the blocks may end.
fn may_end(blocks: &[Seq<Action>]) -> bool
    ensures { result ≡ may_end blocks.now }
{
    match blocks {
        [.., last] => ends_in_ret(last.as_slice()),
        [] => true,
    }
}

// What is wrong with a line `block` behind these blocks.
fn block_cause(before: &[Seq<Action>]) -> Option<ScriptCause>
    ensures { result ≡ block_cause before.now }
{
    if !may_end(before) {
        Some(ScriptCause::NoRet)
    } else if MOST_BLOCKS <= before.len() {
        Some(ScriptCause::Full)
    } else {
        None
    }
}

// What is wrong with the end of a script of these blocks.
fn end_cause(blocks: &[Seq<Action>]) -> Option<ScriptCause>
    ensures { result ≡ end_cause blocks.now }
{
    if blocks.is_empty() {
        Some(ScriptCause::NoBlock)
    } else if !may_end(blocks) {
        Some(ScriptCause::NoRet)
    } else {
        None
    }
}

// The first line of a block behind these at which something is wrong, its own line the first.
fn block_fault(
    count: usize,
    before: &[Seq<Action>],
    actions: &[Action],
) -> Option<(usize, ScriptCause)>
    ensures first { result ≡ first_fault 0 (block_causes count before.now actions.now) }
    ensures near { IfSome result (λ fault. fault.0 ≤ 1025) }
{
    if let Some(cause) = block_cause(before) {
        return Some((0, cause));
    }
    match action_fault(count, actions) {
        Some((within, cause)) => Some((1 + within, cause)),
        None => None,
    }
}

// The first line of a draft at which something is wrong.
fn line_fault(blocks: &[Seq<Action>]) -> Option<(usize, ScriptCause)>
    ensures { result ≡ first_fault 0 (causes_behind (length blocks.now) [] blocks.now) }
{
    let mut place = 0usize;
    'search: for (index, actions) in blocks.iter().enumerate() {
        let (before, _) = blocks.split_at(index);
        match block_fault(blocks.len(), before, actions.as_slice()) {
            Some((within, cause)) => return Some((place + within, cause)),
            None => place += 1 + actions.len(),
        }
    }
    match end_cause(blocks) {
        Some(cause) => Some((place, cause)),
        None => None,
    }
}

/// The bytes of the script that a draft is, whose actions were read line by line.
///
/// The fault is the first line at which something is wrong, and what.
pub fn whole_script(alloc: Global, draft: &Script) -> Result<Seq<u8>, ScriptFault>
    requires { AreSaid draft.now }
    // What is answered spells the draft, which is a script.
    ensures whole { IfOk result (IsWhole draft.now) }
    // Where nothing is, this is the first line at which something is wrong, or the script is too long, or memory ran out.
    ensures refused { IfErr result (IsUnfit draft.now) }
{
    match line_fault(draft.blocks.as_slice()) {
        Some((place, cause)) => Err(ScriptFault::Bad { place, cause }),
        None => match write_script(alloc, draft) {
            Ok(bytes) => Ok(bytes),
            Err(WriteFault::TooLong) => Err(ScriptFault::TooLong),
            Err(WriteFault::Memory) => Err(ScriptFault::Memory),
        },
    }
}
