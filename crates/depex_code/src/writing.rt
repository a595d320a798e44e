// Writing an expression: its one spelling.
ghost use Rattle.std.specs.Prelude.{◌≡◌, ◌++◌, ◌∷◌, [], map, OnOk, IfOk};
ghost use Rattle.depex_code.specs.declared.depex.Depex.TheVariants as depex;
ghost use Rattle.depex_code.specs.declared.instruction.Instruction.TheVariants as instruction;
ghost use Rattle.depex_code.specs.Expression.{bytes_of, instructions, sor_front};
ghost use Rattle.depex_code.specs.Instruction.{instruction_bytes};

use crate::depex::Depex;
use crate::opcode::Opcode;
use crate::opcode_byte::{AFTER, AND, BEFORE, END, FALSE, NOT, OR, PUSH, SOR, TRUE};
use crate::tree::Tree;
use pi_base::{Guid, OutOfMemory, Seq};
use std::alloc::Global;

// Adds an opcode that has a GUID.
fn put_guid(out: &mut Seq<u8>, code: u8, guid: &Guid) -> Result<(), OutOfMemory>
    ensures { OnOk result (out.new ≡ out.old ++ code ∷ guid.now.0) }
{
    out.push(code)?;
    out.append(&guid.0)
}

// Adds an opcode of a tree.
fn put_opcode(out: &mut Seq<u8>, opcode: &Opcode) -> Result<(), OutOfMemory>
    ensures { OnOk result (out.new ≡ out.old ++ instruction_bytes (instruction.Of opcode.now)) }
{
    match opcode {
        Opcode::Push(guid) => put_guid(out, PUSH, guid),
        Opcode::And => out.push(AND),
        Opcode::Or => out.push(OR),
        Opcode::Not => out.push(NOT),
        Opcode::True => out.push(TRUE),
        Opcode::False => out.push(FALSE),
    }
}

// Adds the opcodes of a tree.
fn put_code(out: &mut Seq<u8>, code: &[Opcode]) -> Result<(), OutOfMemory>
    ensures { OnOk result (out.new ≡ out.old ++ bytes_of (map instruction.Of code.now)) }
{
    for opcode in code {
        put_opcode(out, opcode)?;
    }
    Ok(())
}

// SOR before a tree.
fn sor_front(sor: bool) -> &'static [u8]
    ensures { result.now ≡ bytes_of (sor_front sor) }
{
    if sor { &[SOR] } else { &[] }
}

// Adds a tree, with SOR in front or not.
fn put_tree(out: &mut Seq<u8>, sor: bool, tree: &Tree) -> Result<(), OutOfMemory>
    ensures { OnOk result (out.new ≡ out.old ++ bytes_of (instructions (depex.Expr sor tree.now))) }
{
    out.append(sor_front(sor))?;
    put_code(out, tree.code())?;
    out.push(END)
}

// Adds the file name of the driver that BEFORE or AFTER has.
fn put_beside(out: &mut Seq<u8>, code: u8, guid: &Guid) -> Result<(), OutOfMemory>
    ensures { OnOk result (out.new ≡ out.old ++ ((code ∷ guid.now.0) ++ 8 ∷ [])) }
{
    put_guid(out, code, guid)?;
    out.push(END)
}

// Adds the opcodes of an expression.
fn put_depex(out: &mut Seq<u8>, depex: &Depex) -> Result<(), OutOfMemory>
    ensures { OnOk result (out.new ≡ out.old ++ bytes_of (instructions depex.now)) }
{
    match depex {
        Depex::Before(guid) => put_beside(out, BEFORE, guid),
        Depex::After(guid) => put_beside(out, AFTER, guid),
        Depex::Expr { sor, tree } => put_tree(out, *sor, tree),
    }
}

/// The one spelling of an expression. If it has at most `MOST_OPCODES` opcodes, `read_depex` reads it as the same expression.
pub fn write_depex(alloc: Global, depex: &Depex) -> Result<Seq<u8>, OutOfMemory>
    ensures { IfOk result (λ bytes. bytes ≡ bytes_of (instructions depex.now)) }
{
    let mut out = Seq::new(alloc);
    put_depex(&mut out, depex)?;
    Ok(out)
}
