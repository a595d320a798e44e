// What waits for an operand while the words of a tree are gone through.
ghost use Rattle.std.specs.Prelude.{◌≡◌, ◌∷◌, ◌++◌, [], true, false, IfSome, IfNone, OnOk};
ghost use Rattle.source_words.specs.declared.depex.stack.Waiting.TheVariants.{Negation};
ghost use Rattle.source_words.specs.Emission.{nots, behind_nots, operators, below_bracket, opcode_of};

use crate::depex::token::Operator;
use depex_code::Opcode;
use pi_base::{OutOfMemory, Seq};
use std::alloc::Global;
use std::marker::Model;

/// What waits for an operand.
#[derive(Clone, Copy)]
pub(crate) enum Waiting {
    /// NOT.
    Negation,
    /// An opening bracket, for the closing one.
    Bracket,
    /// An operator that has its first operand.
    Between(Operator),
}

/// A stack of what waits, whose contracts see it from its top.
#[derive(Drop)]
pub(crate) struct Stack {
    items: Seq<Waiting>,
}

impl Model for Stack {
    ghost use Rattle.std.specs.Prelude.{List, reverse};
    ghost use Rattle.source_words.specs.declared.depex.stack.Waiting.{Waiting};

    ghost Value = { List Waiting };

    ghost view = { λ s. reverse s.items };
}

impl Stack {
    /// An empty stack.
    pub(crate) fn new(alloc: Global) -> Stack
        ensures { result ≡ [] }
    {
        Stack {
            items: Seq::new(alloc),
        }
    }

    /// Puts something on top.
    pub(crate) fn push(&mut self, waiting: Waiting) -> Result<(), OutOfMemory>
        ensures { OnOk result (self.new ≡ waiting ∷ self.old) }
    {
        self.items.push(waiting)
    }

    /// Takes what is on top.
    fn pop(&mut self) -> Option<Waiting>
        ensures some { IfSome result (λ waiting. self.old ≡ waiting ∷ self.new) }
        ensures none { IfNone result ((self.old ≡ []) × (self.new ≡ [])) }
    {
        self.items.pop()
    }

    /// Takes a NOT, where one is on top.
    fn take_not(&mut self) -> bool
        ensures taken { result ≡ true → self.old ≡ Negation ∷ self.new }
        ensures other { result ≡ false → (self.new ≡ self.old) × (nots self.old ≡ []) × (behind_nots self.old ≡ self.old) }
    {
        match self.items.as_slice() {
            [.., Waiting::Negation] => {
                self.items.pop();
                true
            }
            _ => false,
        }
    }
}

// The opcode of what waits. A bracket has none.
fn opcode_of(waiting: Waiting) -> Option<Opcode>
    ensures { result ≡ opcode_of waiting }
{
    match waiting {
        Waiting::Negation => Some(Opcode::Not),
        Waiting::Bracket => None,
        Waiting::Between(Operator::And) => Some(Opcode::And),
        Waiting::Between(Operator::Or) => Some(Opcode::Or),
    }
}

/// Writes the NOTs on top of the stack.
pub(crate) fn put_nots(stack: &mut Stack, code: &mut Seq<Opcode>) -> Result<(), OutOfMemory>
    ensures code { OnOk result (code.new ≡ code.old ++ nots stack.old) }
    ensures stack { OnOk result (stack.new ≡ behind_nots stack.old) }
{
    'nots: while stack.take_not() {
        code.push(Opcode::Not)?;
    }
    Ok(())
}

/// Writes what waits down to the last bracket, which is taken.
pub(crate) fn put_operators(stack: &mut Stack, code: &mut Seq<Opcode>) -> Result<(), OutOfMemory>
    ensures code { OnOk result (code.new ≡ code.old ++ operators stack.old) }
    ensures stack { OnOk result (stack.new ≡ below_bracket stack.old) }
{
    'operators: while let Some(waiting) = stack.pop() {
        match opcode_of(waiting) {
            Some(opcode) => code.push(opcode)?,
            None => return Ok(()),
        }
    }
    Ok(())
}
