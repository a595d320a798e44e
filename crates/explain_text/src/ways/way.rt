// One way in which an expression gets a truth.
ghost use Rattle.std.specs.Prelude.{◌≡◌, [], ◌∷◌, IfOk};
ghost use Rattle.explain_text.specs.Ways.{cost, joined};

use crate::ways::literal::{Literal, add, cost_of};
use pi_base::{OutOfMemory, Seq};
use std::marker::Model;

/// What a way says: of some GUIDs that they are installed, of others that they are not.
#[derive(Drop)]
pub(crate) struct Way {
    literals: Seq<Literal>,
    /// How many of them are not so now.
    count: usize,
}

impl Model for Way {
    ghost use Rattle.std.specs.Prelude.{◌≡◌, List};
    ghost use Rattle.explain_text.specs.declared.ways.literal.Literal.{Literal};

    ghost Value = { List Literal };

    ghost use Rattle.explain_text.specs.Ways.{cost};

    ghost view = { λ w. w.literals };

    ghost invariant = { λ w. w.count ≡ cost w.literals };
}

impl Way {
    /// The way that says this.
    pub(crate) fn new(literals: Seq<Literal>) -> Way
        ensures { result ≡ literals }
    {
        let count = cost_of(literals.as_slice());
        Way { literals, count }
    }

    /// What it says.
    pub(crate) fn literals(&self) -> &[Literal]
        ensures { result.now ≡ self.now }
    {
        self.literals.as_slice()
    }

    /// How many GUIDs it changes.
    pub(crate) fn cost(&self) -> usize
        ensures { result ≡ cost self.now }
    {
        self.count
    }

    /// The same way again.
    pub(crate) fn again(&self) -> Result<Way, OutOfMemory>
        ensures { IfOk result (λ way. way ≡ self.now) }
    {
        let mut literals = Seq::new(self.literals.alloc());
        literals.append(self.literals.as_slice())?;
        Ok(Way::new(literals))
    }
}

/// Two ways in one. None where they contradict each other.
pub(crate) fn joined(first: &Way, second: &Way) -> Result<Option<Way>, OutOfMemory>
    ensures { IfOk result (λ way. way ≡ joined first.now second.now) }
{
    let mut literals = Seq::new(first.literals.alloc());
    literals.append(first.literals())?;
    let mut rest = second.literals();
    'literals: while let [literal, after @ ..] = rest {
        if !add(&mut literals, literal)? {
            return Ok(None);
        }
        rest = after;
    }
    Ok(Some(Way::new(literals)))
}
