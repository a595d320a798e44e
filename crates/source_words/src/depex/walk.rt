// Going through the words of a tree from left to right.
ghost use Rattle.std.specs.Prelude.{◌≡◌, ◌+◌, ◌<◌, ◌^◌, []};
ghost use Rattle.source_words.specs.declared.depex.walk.Stage.TheVariants.{Due, Ended};
ghost use Rattle.source_words.specs.declared.depex.fault.ExpressionFault.TheVariants.{Extra};
ghost use Rattle.source_words.specs.Emission.{Steps, Finishes, leaf_opcode};

use crate::depex::fault::ExpressionFault;
use crate::depex::stack::{Stack, Waiting, put_nots, put_operators};
use crate::depex::token::{Leaf, Operator, Token};
use depex_code::Opcode;
use pi_base::Seq;
use std::alloc::Global;

/// What may come next.
#[derive(Clone, Copy)]
pub(crate) enum Stage {
    /// An operand.
    Due,
    /// What may stand behind an operand.
    Ended,
    /// Nothing: END stood there.
    Over,
}

/// Words of a tree that were gone through.
#[derive(Drop)]
pub(crate) struct Walk {
    waiting: Stack,
    depth: usize,
    stage: Stage,
    code: Seq<Opcode>,
}

// The opcode of an operand.
fn leaf_opcode(leaf: Leaf) -> Opcode
    ensures { result ≡ leaf_opcode leaf }
{
    match leaf {
        Leaf::True => Opcode::True,
        Leaf::False => Opcode::False,
        Leaf::Push(guid) => Opcode::Push(guid),
    }
}

impl Walk {
    /// No words.
    pub(crate) fn new(alloc: Global) -> Walk
        ensures waiting { result.waiting ≡ [] }
        ensures depth { result.depth ≡ 0 }
        ensures stage { result.stage ≡ Due }
        ensures code { result.code ≡ [] }
    {
        Walk {
            waiting: Stack::new(alloc),
            depth: 0,
            stage: Stage::Due,
            code: Seq::new(alloc),
        }
    }

    // A word where an operand is due.
    fn begin(&mut self, token: Token) -> Result<(), ExpressionFault>
        requires due { self.old.stage ≡ Due }
        requires few { self.old.depth + 1 < 2 ^ 64 }
        ensures { Steps self.old token result self.new }
    {
        match token {
            Token::Leaf(leaf) => {
                self.code.push(leaf_opcode(leaf))?;
                self.stage = Stage::Ended;
                Ok(())
            }
            Token::Not => {
                self.waiting.push(Waiting::Negation)?;
                Ok(())
            }
            Token::Open => {
                self.waiting.push(Waiting::Bracket)?;
                self.depth += 1;
                Ok(())
            }
            Token::Close | Token::Operator(_) | Token::End => Err(ExpressionFault::NoOperand),
            Token::First(_) => Err(ExpressionFault::Extra),
            Token::Other => Err(ExpressionFault::NoGuid),
        }
    }

    // An operator behind an operand.
    fn join(&mut self, operator: Operator) -> Result<(), ExpressionFault>
        requires ended { self.old.stage ≡ Ended }
        ensures { Steps self.old (Token.Operator operator) result self.new }
    {
        put_nots(&mut self.waiting, &mut self.code)?;
        self.waiting.push(Waiting::Between(operator))?;
        self.stage = Stage::Due;
        Ok(())
    }

    // A closing bracket behind an operand.
    fn close(&mut self) -> Result<(), ExpressionFault>
        requires ended { self.old.stage ≡ Ended }
        ensures { Steps self.old Token.Close result self.new }
    {
        if self.depth == 0 {
            return Err(ExpressionFault::Bracket);
        }
        put_operators(&mut self.waiting, &mut self.code)?;
        self.depth -= 1;
        Ok(())
    }

    // END behind an operand.
    fn end(&mut self) -> Result<(), ExpressionFault>
        requires ended { self.old.stage ≡ Ended }
        ensures { Steps self.old Token.End result self.new }
    {
        if self.depth > 0 {
            return Err(ExpressionFault::Bracket);
        }
        self.stage = Stage::Over;
        Ok(())
    }

    // A word where an operand ended.
    fn go_on(&mut self, token: Token) -> Result<(), ExpressionFault>
        requires ended { self.old.stage ≡ Ended }
        ensures { Steps self.old token result self.new }
    {
        match token {
            Token::Operator(operator) => self.join(operator),
            Token::Close => self.close(),
            Token::End => self.end(),
            _ => Err(ExpressionFault::Extra),
        }
    }

    /// Takes the next word.
    pub(crate) fn take(&mut self, token: Token) -> Result<(), ExpressionFault>
        requires { self.old.depth + 1 < 2 ^ 64 }
        ensures { Steps self.old token result self.new }
    {
        match self.stage {
            Stage::Due => self.begin(token),
            Stage::Ended => self.go_on(token),
            Stage::Over => Err(ExpressionFault::Extra),
        }
    }

    /// The postfix opcodes, where the words are all that there are.
    pub(crate) fn finish(self) -> Result<Seq<Opcode>, ExpressionFault>
        ensures { Finishes self result }
    {
        let Walk {
            mut waiting,
            depth,
            stage,
            mut code,
        } = self;
        match stage {
            Stage::Due => return Err(ExpressionFault::NoOperand),
            Stage::Ended if depth > 0 => return Err(ExpressionFault::Bracket),
            _ => {}
        }
        put_operators(&mut waiting, &mut code)?;
        Ok(code)
    }
}
