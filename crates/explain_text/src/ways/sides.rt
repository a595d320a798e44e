// The parts of a tree while its opcodes are taken in order.
ghost use Rattle.std.specs.Prelude.{◌≡◌, ◌≢◌, Some, IsSome, OnOk, IfOk, [], ◌∷◌};
ghost use Rattle.explain_text.specs.Sides.{side_of, sides_after};

use crate::ways::side::Side;
use depex_code::{GuidSet, Opcode, Tree};
use pi_base::{OutOfMemory, Seq};
use std::alloc::Global;
use std::marker::Model;

/// Parts, the last one first.
#[derive(Drop)]
pub(crate) struct Sides {
    items: Seq<Side>,
}

impl Model for Sides {
    ghost use Rattle.std.specs.Prelude.{List, reverse};
    ghost use Rattle.explain_text.specs.declared.ways.side.Side.{Side};

    ghost Value = { List Side };

    ghost view = { λ s. reverse s.items };
}

impl Sides {
    // None.
    fn new(alloc: Global) -> Sides
        ensures { result ≡ [] }
    {
        Sides {
            items: Seq::new(alloc),
        }
    }

    // One more.
    fn push(&mut self, side: Side) -> Result<(), OutOfMemory>
        ensures { OnOk result (self.new ≡ side ∷ self.old) }
    {
        self.items.push(side)
    }

    // Takes the last one off.
    fn pop(&mut self) -> Side
        requires { self.old ≢ [] }
        ensures { self.old ≡ result ∷ self.new }
    {
        self.items.pop().unwrap()
    }

    // Takes an opcode's operands off, and puts its part there.
    fn apply<G: GuidSet>(&mut self, set: &G, opcode: &Opcode) -> Result<(), OutOfMemory>
        requires order { G.in_order set.now }
        requires operands { IsSome (sides_after (G.has_guid set.now) opcode.now self.old) }
        ensures { OnOk result (sides_after (G.has_guid set.now) opcode.now self.old ≡ Some self.new) }
    {
        let alloc = self.items.alloc();
        let side = match opcode {
            Opcode::Push(guid) => Side::guid(alloc, set, guid)?,
            Opcode::True => Side::fixed(alloc, true)?,
            Opcode::False => Side::fixed(alloc, false)?,
            Opcode::Not => self.pop().not(),
            Opcode::And => {
                let second = self.pop();
                self.pop().and(&second)?
            }
            Opcode::Or => {
                let second = self.pop();
                self.pop().or(&second)?
            }
        };
        self.push(side)
    }
}

/// What a tree is over a set of GUIDs.
pub(crate) fn side_of<G: GuidSet>(alloc: Global, set: &G, tree: &Tree) -> Result<Side, OutOfMemory>
    requires order { G.in_order set.now }
    ensures { IfOk result (λ side. side ≡ side_of (G.has_guid set.now) tree.now) }
{
    let mut sides = Sides::new(alloc);
    let mut rest = tree.code();
    'opcodes: while let [opcode, after @ ..] = rest {
        sides.apply(set, opcode)?;
        rest = after;
    }
    Ok(sides.pop())
}
