// A GUID that is installed, or one that is not; and what several say.
ghost use Rattle.std.specs.Prelude.{◌≡◌, if◌then◌else◌, IfOk, None, Some};
ghost use Rattle.explain_text.specs.Ways.{added, cost, said_of, same_truth};

use pi_base::{Guid, OutOfMemory, Seq};

/// A GUID that is installed, or one that is not.
#[derive(Clone, Copy)]
pub(crate) struct Literal {
    pub(crate) guid: Guid,
    /// Whether it says that the GUID is installed.
    pub(crate) there: bool,
    /// Whether what it says is so now.
    pub(crate) is_so: bool,
}

/// Whether two answers are the same.
pub(crate) fn same_truth(first: bool, second: bool) -> bool
    ensures { result ≡ same_truth first second }
{
    if first { second } else { !second }
}

// What literals say of a GUID, if they say anything.
fn said_of(literals: &[Literal], guid: &Guid) -> Option<bool>
    ensures { result ≡ said_of literals.now guid.now }
{
    let mut rest = literals;
    'literals: while let [literal, after @ ..] = rest {
        if literal.guid.0.as_slice() == guid.0.as_slice() {
            return Some(literal.there);
        }
        rest = after;
    }
    None
}

/// Adds a literal, unless the others say the same of its GUID. False where they say the opposite.
pub(crate) fn add(literals: &mut Seq<Literal>, literal: &Literal) -> Result<bool, OutOfMemory>
    ensures { IfOk result (λ fits. added literals.old literal.now ≡ (if fits then Some literals.new else None)) }
{
    match said_of(literals.as_slice(), &literal.guid) {
        Some(there) => Ok(same_truth(there, literal.there)),
        None => {
            literals.push(*literal)?;
            Ok(true)
        }
    }
}

/// How many literals are not so now.
pub(crate) fn cost_of(literals: &[Literal]) -> usize
    ensures { result ≡ cost literals.now }
{
    let mut cost = 0;
    'literals: for literal in literals {
        if !literal.is_so {
            cost += 1;
        }
    }
    cost
}
