// How many values the opcodes of trees leave.
ghost use Rattle.std.specs.Prelude.{◌≡◌, ◌<◌, ◌+◌, ◌^◌, ◌↔◌, [], length, option_map, IsTrue};
ghost use Rattle.depex_code.specs.{Depth.depth_after, Tree.postfix, TreeCode.stack_after, TreeCode.tree_of};

use crate::opcode::Opcode;

/// How many values there are after an opcode. None if its operands are not there.
pub fn depth_after(opcode: &Opcode, depth: usize) -> Option<usize>
    requires { depth + 1 < 2 ^ 64 }
    ensures { result ≡ depth_after opcode.now depth }
{
    match opcode {
        Opcode::Push(_) | Opcode::True | Opcode::False => Some(depth + 1),
        Opcode::Not => if depth < 1 { None } else { Some(depth) },
        Opcode::And | Opcode::Or => if depth < 2 { None } else { Some(depth - 1) },
    }
}

/// How many trees the opcodes spell, one after the other. None where an operand is not there.
pub fn depth_of(code: &[Opcode]) -> Option<usize>
    ensures { result ≡ option_map length (stack_after code.now []) }
{
    let mut depth = 0;
    for opcode in code {
        depth = depth_after(opcode, depth)?;
    }
    Some(depth)
}

/// Whether the opcodes are those of one tree.
pub fn is_tree(code: &[Opcode]) -> bool
    ensures { IsTrue result ↔ (postfix (tree_of code.now) ≡ code.now) }
{
    match depth_of(code) {
        Some(depth) => depth == 1,
        None => false,
    }
}
