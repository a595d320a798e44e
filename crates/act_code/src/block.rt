// The blocks of a script, read action by action.
ghost use Rattle.std.specs.Prelude.{◌≡◌, ◌≤◌, ◌-◌, [], IfOk};
ghost use Rattle.act_code.specs.ScriptReading.{Gives, fault_at, checked_at, many, count_at, block_at};
ghost use Rattle.act_code.specs.declared.block.Stop.TheVariants as stop;

use crate::action::Action;
use crate::action_reading::action;
use crate::fault::{ActCause, ActFault};
use crate::header::Header;
use crate::index::{ends_in_ret, has_room, is_indexed};
use crate::operand::Unread;
use pi_base::{OutOfMemory, Seq, u16_at};
use std::alloc::Global;

/// Why reading stopped.
pub enum Stop {
    /// The first fault.
    Fault(ActFault),
    /// Want of memory.
    Memory,
}

impl From<ActFault> for Stop {
    ghost from_gives = { λ fault e. e ≡ stop.Fault fault };

    fn from(fault: ActFault) -> Stop {
        Stop::Fault(fault)
    }
}

impl From<OutOfMemory> for Stop {
    ghost from_gives = { λ _ e. e ≡ stop.Memory };

    fn from(_want: OutOfMemory) -> Stop {
        Stop::Memory
    }
}

/// The most actions of a block.
pub const MOST_ACTIONS: u16 = 1024;

/// A fault at what is left of a script.
pub fn fault(header: Header, cause: ActCause, rest: &[u8]) -> ActFault
    requires { header.size ≤ 65536 }
    ensures { result ≡ fault_at header.size cause rest.now }
{
    ActFault {
        at: header.size.saturating_sub(rest.len()) as u32,
        cause,
    }
}

// The action at the front of the bytes, with so many actions of its block left.
#[tactic(auto, unfolding(crate::specs::ScriptReading::checked_at, crate::specs::ScriptReading::checked))]
fn checked(alloc: Global, header: Header, left: u16, bytes: &[u8]) -> Result<(Action, &[u8]), Stop>
    requires { header.size ≤ 65536 }
    ensures { Gives (λ x. (x.0, x.1.now)) result (checked_at header left bytes.now) }
{
    match action(alloc, header.phase, bytes) {
        Ok((action, rest)) => {
            if !is_indexed(&action, header.blocks) {
                drop(action);
                Err(Stop::Fault(fault(header, ActCause::Index, bytes)))
            } else if !has_room(&action, usize::from(left)) {
                drop(action);
                Err(Stop::Fault(fault(header, ActCause::Jump, bytes)))
            } else {
                Ok((action, rest))
            }
        }
        Err(Unread::Malformed) => Err(Stop::Fault(fault(header, ActCause::Action, bytes))),
        Err(Unread::Memory) => Err(Stop::Memory),
    }
}

// No actions yet, with room for so many.
fn room_for(alloc: Global, count: u16) -> Result<Seq<Action>, OutOfMemory>
    ensures { IfOk result (λ actions. actions ≡ []) }
{
    match Vec::with_capacity(alloc, usize::from(count)) {
        Ok(items) => Ok(Seq::from_vec(items)),
        Err(_) => Err(OutOfMemory),
    }
}

// So many actions.
fn actions_of(
    alloc: Global,
    header: Header,
    count: u16,
    bytes: &[u8],
) -> Result<(Seq<Action>, &[u8]), Stop>
    requires { header.size ≤ 65536 }
    ensures { Gives (λ x. (x.0, x.1.now)) result (many (checked_at header) count bytes.now) }
{
    let mut actions = room_for(alloc, count)?;
    let mut rest = bytes;
    for done in 0..count {
        let (action, after) = checked(alloc, header, count - done, rest)?;
        actions.push(action)?;
        rest = after;
    }
    Ok((actions, rest))
}

// The number of a block's actions.
#[tactic(auto, unfolding(crate::specs::ScriptReading::count_at))]
fn count_of(header: Header, bytes: &[u8]) -> Result<(u16, &[u8]), Stop>
    requires { header.size ≤ 65536 }
    ensures { Gives (λ x. (x.0, x.1.now)) result (count_at header bytes.now) }
{
    if bytes.len() < 2 {
        return Err(Stop::Fault(fault(header, ActCause::Block, bytes)));
    }
    let count = u16_at(bytes, 0);
    if 1 <= count && count <= MOST_ACTIONS {
        Ok((count, &bytes[2..]))
    } else {
        Err(Stop::Fault(fault(header, ActCause::Block, bytes)))
    }
}

// A block.
#[tactic(auto, unfolding(crate::specs::ScriptReading::block_at))]
fn block(alloc: Global, header: Header, bytes: &[u8]) -> Result<(Seq<Action>, &[u8]), Stop>
    requires { header.size ≤ 65536 }
    ensures { Gives (λ x. (x.0, x.1.now)) result (block_at header bytes.now) }
{
    let (count, rest) = count_of(header, bytes)?;
    let (actions, rest) = actions_of(alloc, header, count, rest)?;
    if ends_in_ret(actions.as_slice()) {
        Ok((actions, rest))
    } else {
        drop(actions);
        Err(Stop::Fault(fault(header, ActCause::Block, bytes)))
    }
}

/// As many blocks as the header says.
pub fn blocks_of(
    alloc: Global,
    header: Header,
    bytes: &[u8],
) -> Result<(Seq<Seq<Action>>, &[u8]), Stop>
    requires { header.size ≤ 65536 }
    ensures { Gives (λ x. (x.0, x.1.now)) result (many (λ _. block_at header) header.blocks bytes.now) }
{
    let mut blocks = Seq::new(alloc);
    let mut rest = bytes;
    for _ in 0..header.blocks {
        let (actions, after) = block(alloc, header, rest)?;
        blocks.push(actions)?;
        rest = after;
    }
    Ok((blocks, rest))
}
