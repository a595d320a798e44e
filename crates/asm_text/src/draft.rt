// A script that is built line by line. Its last block may continue.
ghost use Rattle.std.specs.Prelude.{◌≡◌, ◌-◌, ◌&&◌, ◌++◌, ◌∷◌, [], List, length};
ghost use Rattle.act_code.specs.{declared.action.Action.Action, Index.names_below, Reading.Gives};
ghost use Rattle.std.specs.List.{list_all};
ghost use Rattle.asm_text.specs.Drafts.{have_room, is_closed, may_end, may_stand, with_block, with_action, extended, with_line, is_whole};
ghost use Rattle.asm_text.specs.Walk.{split_last};

use crate::line_reading::action_of;
use crate::script_text::block_text;
use act_code::{Action, MOST_BLOCKS, Script, Unread, ends_in_ret, has_room, is_ret, names_below};
use pi_base::{Phase, Seq};
use std::alloc::Global;

// The most actions of a block.
const MOST_ACTIONS: usize = act_code::MOST_ACTIONS as usize;

// Whether an action is valid with so many actions left, itself included.
fn may_stand(action: &Action, left: usize) -> bool
    ensures { result ≡ may_stand left action.now }
{
    has_room(action, left) && (left > 1 || is_ret(action))
}

// Whether each action that skips others has them after it and one more.
fn have_room(actions: &[Action]) -> bool
    ensures { result ≡ have_room (length actions.now) actions.now }
{
    'actions: for (index, action) in actions.iter().enumerate() {
        if !has_room(action, actions.len() - index) {
            return false;
        }
    }
    true
}

// Whether a block may end after these actions.
fn is_closed(actions: &[Action]) -> bool
    ensures { result ≡ is_closed actions.now }
{
    ends_in_ret(actions) && have_room(actions)
}

// Whether the last block may end here, or the given answer if there is no block.
fn may_end(blocks: &[Seq<Action>], none: bool) -> bool
    ensures { result ≡ may_end none (split_last blocks.now) }
{
    match blocks {
        [.., last] => is_closed(last.as_slice()),
        [] => none,
    }
}

// Adds a block to the script.
fn add_block(alloc: Global, draft: &mut Script) -> Result<(), Unread>
    ensures { Gives (λ _. draft.new) result (with_block draft.old) }
{
    if draft.blocks.len() < MOST_BLOCKS as usize && may_end(draft.blocks.as_slice(), true) {
        draft.blocks.push(Seq::new(alloc))?;
        Ok(())
    } else {
        Err(Unread::Malformed)
    }
}

// Adds an action to a last block.
fn add_action(
    alloc: Global,
    phase: Phase,
    last: &mut Seq<Action>,
    line: &[u8],
) -> Result<(), Unread>
    ensures { (others : List (List Action)) → Gives (λ _. record { phase = phase; blocks = others ++ last.new ∷ [] }) result
        (with_action phase line.now (others, last.old)) }
{
    let action = action_of(alloc, phase, line)?;
    if last.len() >= MOST_ACTIONS || !may_stand(&action, MOST_ACTIONS - last.len()) {
        drop(action);
        return Err(Unread::Malformed);
    }
    last.push(action)?;
    Ok(())
}

// Adds an action to the last block of the script.
fn extend(alloc: Global, draft: &mut Script, line: &[u8]) -> Result<(), Unread>
    ensures { Gives (λ _. draft.new) result (extended draft.old line.now) }
{
    let Some(mut last) = draft.blocks.pop() else {
        return Err(Unread::Malformed);
    };
    match add_action(alloc, draft.phase, &mut last, line) {
        Ok(()) => {
            draft.blocks.push(last)?;
            Ok(())
        }
        Err(unread) => {
            drop(last);
            Err(unread)
        }
    }
}

/// Adds a line to the script. It is no script any more if there is no such line.
#[tactic(auto, unfolding(crate::specs::Drafts::with_line))]
pub(crate) fn add_line(alloc: Global, draft: &mut Script, line: &[u8]) -> Result<(), Unread>
    ensures { Gives (λ _. draft.new) result (with_line draft.old line.now) }
{
    if line == block_text() {
        add_block(alloc, draft)
    } else {
        extend(alloc, draft, line)
    }
}

// Whether all actions of a block name only blocks below a number.
fn name_below(actions: &[Action], count: usize) -> bool
    ensures { result ≡ list_all (names_below count) actions.now }
{
    actions.iter().all(|action| names_below(action, count))
}

// Whether all actions of all blocks do.
fn all_name_below(blocks: &[Seq<Action>], count: usize) -> bool
    ensures { result ≡ list_all (list_all (names_below count)) blocks.now }
{
    blocks
        .iter()
        .all(|actions| name_below(actions.as_slice(), count))
}

/// Whether the lines are all that the script has.
pub(crate) fn is_whole(draft: &Script) -> bool
    ensures { result ≡ is_whole draft.now }
{
    may_end(draft.blocks.as_slice(), false)
        && all_name_below(draft.blocks.as_slice(), draft.blocks.len())
}
