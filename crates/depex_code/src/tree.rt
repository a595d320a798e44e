// Trees of dependency expressions.
ghost use Rattle.std.specs.Prelude.{◌≡◌};

use crate::depth::is_tree;
use crate::opcode::Opcode;
use crate::set::GuidSet;
use crate::steps::Steps;
use crate::truth::truth_of;
use pi_base::Seq;
use std::marker::Model;
use std::sync::ledger::Ledger;

/// A dependency expression as the postfix opcodes of its tree. So no file can make a call recurse deeply.
#[derive(Drop)]
pub struct Tree {
    code: Seq<Opcode>,
}

impl Model for Tree {
    ghost use Rattle.std.specs.Prelude.{◌≡◌};
    ghost use Rattle.depex_code.specs.Tree.{DepexTree, postfix};
    ghost use Rattle.depex_code.specs.TreeCode.{tree_code, tree_of};

    ghost Value = { DepexTree };

    ghost coded = { tree_code };

    ghost view = { λ t. tree_of t.code };

    ghost invariant = { λ t. postfix (tree_of t.code) ≡ t.code };
}

impl Tree {
    ghost use Rattle.std.specs.Prelude.{◌≡◌, ◌≤◌, ◌+◌, length, IfSome, IfNone};
    ghost use Rattle.depex_code.specs.Tree.{DepexTree, postfix, truth};

    /// The tree that has these postfix opcodes. None if there is none; the opcodes are then dropped.
    pub fn from_code(code: Seq<Opcode>) -> Option<Tree>
        ensures some { IfSome result (λ node. postfix node ≡ code) }
        ensures none { IfNone result ((node : DepexTree) → postfix node ≡ code → ⊥) }
    {
        if is_tree(code.as_slice()) {
            Some(Tree { code })
        } else {
            None
        }
    }

    /// The tree whose postfix opcodes these are.
    pub(crate) fn spelled(code: Seq<Opcode>) -> Tree
        requires { (node : DepexTree) × (postfix node ≡ code) }
        ensures { postfix result ≡ code }
    {
        Tree { code }
    }

    /// The postfix opcodes.
    pub fn code(&self) -> &[Opcode]
        ensures { result.now ≡ postfix self.now }
    {
        self.code.as_slice()
    }

    /// Whether the tree is true if exactly the GUIDs of the set are installed. It counts one step.
    pub fn holds<G: GuidSet, L: Ledger>(&self, set: &G, steps: &mut Steps<L>) -> bool
        requires order { G.in_order set.now }
        requires few { length (postfix self.now) ≤ 1023 }
        ensures truth { result ≡ truth (G.has_guid set.now) self.now }
        ensures one_step { steps.new ≡ steps.old + 1 }
    {
        steps.tick();
        truth_of(self.code(), set)
    }
}
