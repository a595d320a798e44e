// The operands of the actions of both phases, read in order from any source.
#![tactic(auto, using(crate::proofs::Sources::stops_then), unfolding(crate::specs::Source::operands_by))]

ghost use Rattle.act_code.specs.Source.{Gives, operands_by};
ghost use Rattle.act_code.specs.declared.code.Code.TheVariants as Code;

use crate::action::Action;
use crate::operand::MOST_BYTES;
use crate::source::Source;
use std::alloc::Global;

/// Reads `set`: a register and a number.
pub fn set<S: Source>(source: S) -> Result<(Action, S), S::Fault>
    ensures { Gives S.left S.cause result (operands_by S.way Code.Set (S.left source)) }
{
    let (r, source) = source.register()?;
    let (n, source) = source.number_8()?;
    Ok((Action::Set { r, n }, source))
}

/// Reads `add`: a register and a number.
pub fn add<S: Source>(source: S) -> Result<(Action, S), S::Fault>
    ensures { Gives S.left S.cause result (operands_by S.way Code.Add (S.left source)) }
{
    let (r, source) = source.register()?;
    let (n, source) = source.number_8()?;
    Ok((Action::Add { r, n }, source))
}

/// Reads `peek`: the register of an address, and how many bytes.
pub fn peek<S: Source>(source: S) -> Result<(Action, S), S::Fault>
    ensures { Gives S.left S.cause result (operands_by S.way Code.Peek (S.left source)) }
{
    let (v, source) = source.register()?;
    let (n, source) = source.within(1, MOST_BYTES)?;
    Ok((Action::Peek { v, n }, source))
}

/// Reads `log`: a text.
pub fn log<S: Source>(alloc: Global, source: S) -> Result<(Action, S), S::Fault>
    ensures { Gives S.left S.cause result (operands_by S.way Code.Log (S.left source)) }
{
    let (text, source) = source.text(alloc)?;
    Ok((Action::Log { text }, source))
}

/// Reads `skip_if`: a condition, and how many actions.
pub fn skip_if<S: Source>(source: S) -> Result<(Action, S), S::Fault>
    ensures { Gives S.left S.cause result (operands_by S.way Code.SkipIf (S.left source)) }
{
    let (condition, source) = source.within(0, 1)?;
    let (n, source) = source.within(1, u8::MAX)?;
    Ok((Action::SkipIf { condition, n }, source))
}

/// Reads `ret`: a status.
pub fn ret<S: Source>(source: S) -> Result<(Action, S), S::Fault>
    ensures { Gives S.left S.cause result (operands_by S.way Code.Ret (S.left source)) }
{
    let (status, source) = source.status()?;
    Ok((Action::Ret { status }, source))
}
