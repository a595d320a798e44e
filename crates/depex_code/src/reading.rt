// Reading an expression from its bytes.
ghost use Rattle.std.specs.Prelude.{◌≡◌, ◌+◌, ◌-◌, ◌<◌, ◌≤◌, ◌^◌, length, Some, IfOk, IfErr};
ghost use Rattle.depex_code.specs.Reading.{IsTreeRead, IsTreeRefused, IsTreeDepex, IsBeside, Goes, instruction_at};
ghost use Rattle.depex_code.specs.Expression.{Reads, IsRefused};

use crate::depex::Depex;
use crate::depth::depth_after;
use crate::fault::DepexFault;
use crate::instruction::{Instruction, instruction_at};
use crate::opcode::Opcode;
use crate::tree::Tree;
use pi_base::{Phase, Seq};
use std::alloc::Global;

/// The most opcodes that an expression may have, END and SOR among them (own).
pub const MOST_OPCODES: usize = 1024;

/// What is next in a tree.
enum Turn<'a> {
    /// An opcode, the depth after it, and the bytes after it.
    Opcode(Opcode, usize, &'a [u8]),
    /// The end of the one tree.
    End,
    /// Nothing that continues the tree.
    Stuck,
}

// What is at the front of the bytes, in a tree that has left so many values.
fn next_turn(bytes: &[u8], depth: usize) -> Turn<'_>
    requires { depth + 1 < 2 ^ 64 }
    ensures { Goes depth (instruction_at bytes.now) result }
{
    match instruction_at(bytes) {
        Some((Instruction::Of(opcode), rest)) => match depth_after(&opcode, depth) {
            Some(next) => Turn::Opcode(opcode, next, rest),
            None => Turn::Stuck,
        },
        Some((Instruction::End, _)) => { if depth == 1 { Turn::End } else { Turn::Stuck } }
        _ => Turn::Stuck,
    }
}

// The fault at what is left of the bytes, which begin at an offset of the expression.
fn malformed(from: u32, bytes: &[u8], rest: &[u8]) -> DepexFault
    requires part { length rest.now ≤ length bytes.now }
    requires near { from + (length bytes.now - length rest.now) < 2 ^ 32 }
    ensures { result ≡ DepexFault.Malformed (from + (length bytes.now - length rest.now)) }
{
    DepexFault::Malformed(from + (bytes.len() - rest.len()) as u32)
}

// The tree at the front of the bytes, with its END, within a room of opcodes. The bytes begin at an offset of the expression.
fn tree_at(alloc: Global, bytes: &[u8], from: u32, room: usize) -> Result<Tree, DepexFault>
    requires near { from ≤ 1 }
    requires few { room ≤ 1024 }
    ensures read { IfOk result (IsTreeRead bytes.now room) }
    ensures refused { IfErr result (IsTreeRefused bytes.now from room) }
{
    let mut code = Seq::new(alloc);
    let mut rest = bytes;
    let mut depth = 0;
    'opcodes: while code.len() < room {
        match next_turn(rest, depth) {
            Turn::Opcode(opcode, after, behind) => {
                code.push(opcode)?;
                depth = after;
                rest = behind;
            }
            Turn::End => return Ok(Tree::spelled(code)),
            Turn::Stuck => break,
        }
    }
    Err(malformed(from, bytes, rest))
}

// The driver's name that BEFORE or AFTER has, with its END after it.
fn beside(depex: Depex, bytes: &[u8], rest: &[u8]) -> Result<Depex, DepexFault>
    requires part { length rest.now ≤ length bytes.now }
    requires near { length bytes.now - length rest.now < 2 ^ 32 }
    ensures { IsBeside depex bytes.now rest.now result }
{
    match instruction_at(rest) {
        Some((Instruction::End, _)) => Ok(depex),
        _ => Err(malformed(0, bytes, rest)),
    }
}

// An expression that is a tree, with SOR in front or not.
fn tree_depex(alloc: Global, bytes: &[u8], sor: bool) -> Result<Depex, DepexFault>
    ensures { IsTreeDepex sor bytes.now result }
{
    let from = u32::from(sor);
    let tree = tree_at(alloc, bytes, from, MOST_OPCODES - from as usize)?;
    Ok(Depex::Expr { sor, tree })
}

// The driver's expression whose first opcode was read, and is not the end of the bytes.
fn driver_depex(
    alloc: Global,
    bytes: &[u8],
    first: Instruction,
    rest: &[u8],
) -> Result<Depex, DepexFault>
    requires { instruction_at bytes.now ≡ Some (first, rest.now) }
    ensures read { IfOk result (Reads Phase.Dxe bytes.now) }
    ensures refused { IfErr result (IsRefused Phase.Dxe bytes.now) }
{
    match first {
        Instruction::Before(guid) => beside(Depex::Before(guid), bytes, rest),
        Instruction::After(guid) => beside(Depex::After(guid), bytes, rest),
        Instruction::Sor => tree_depex(alloc, rest, true),
        Instruction::Of(_) => tree_depex(alloc, bytes, false),
        Instruction::End => tree_depex(alloc, bytes, false),
    }
}

/// Reads the dependency expression at the front of the bytes. Bytes after its END are ignored. In PEI an expression is a tree without SOR.
///
/// `Malformed` has the offset of the first opcode that fails. An opcode fails if it is: the end of the bytes; unknown or not of the phase; cut short in its
/// operand; SOR, BEFORE or AFTER anywhere but first; anything but END after BEFORE or AFTER; an operator with too few values; END with a number of values other
/// than one; the 1,025th opcode (own).
pub fn read_depex(alloc: Global, bytes: &[u8], phase: Phase) -> Result<Depex, DepexFault>
    // What is read is the expression that is there.
    ensures read { IfOk result (Reads phase bytes.now) }
    // If nothing is read, it is malformed there, unless memory ran out.
    ensures refused { IfErr result (IsRefused phase bytes.now) }
{
    match phase {
        Phase::Pei => tree_depex(alloc, bytes, false),
        Phase::Dxe => match instruction_at(bytes) {
            Some((first, rest)) => driver_depex(alloc, bytes, first, rest),
            None => Err(malformed(0, bytes, bytes)),
        },
    }
}
