// Whether a tree holds: its opcodes are taken in order, over a stack of values.
ghost use Rattle.std.specs.Prelude.{◌≡◌, ◌<◌, ◌≤◌, Some, IsSome, length};
ghost use Rattle.depex_code.specs.{Depth.values_after, Tree.postfix, Tree.truth, TreeCode.tree_of};

use crate::opcode::Opcode;
use crate::set::GuidSet;
use crate::values::Values;

// Replaces an opcode's operands on the stack by its value.
fn apply<G: GuidSet>(values: &mut Values, opcode: &Opcode, set: &G)
    requires order { G.in_order set.now }
    requires operands { IsSome (values_after (G.has_guid set.now) opcode.now values.old) }
    requires room { length values.old < 1023 }
    ensures { values_after (G.has_guid set.now) opcode.now values.old ≡ Some values.new }
{
    match opcode {
        Opcode::Push(guid) => values.push(set.has(guid)),
        Opcode::True => values.push(true),
        Opcode::False => values.push(false),
        Opcode::Not => {
            let value = values.pop();
            values.push(!value);
        }
        Opcode::And => {
            let second = values.pop();
            let first = values.pop();
            values.push(first && second);
        }
        Opcode::Or => {
            let second = values.pop();
            let first = values.pop();
            values.push(first || second);
        }
    }
}

/// The truth of the tree that the opcodes spell.
pub fn truth_of<G: GuidSet>(code: &[Opcode], set: &G) -> bool
    requires order { G.in_order set.now }
    requires tree { postfix (tree_of code.now) ≡ code.now }
    requires few { length code.now ≤ 1023 }
    ensures { result ≡ truth (G.has_guid set.now) (tree_of code.now) }
{
    let mut values = Values::new();
    for opcode in code {
        apply(&mut values, opcode, set);
    }
    values.pop()
}
