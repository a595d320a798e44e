//! Dependency expressions in the words of an INF file (`[Depex]`), read as EDK2's GenDepex reads them: NOT binds first, AND and OR alike and
//! grouped from the right, so that `A AND B OR C` is `A AND (B OR C)`.
//!
//! Tried in `volume_trials`: `expressions`.

mod expression;
mod fault;
mod law;
mod stack;
mod token;
mod tree;
mod walk;

pub use expression::read_expression;
pub use fault::ExpressionFault;
pub use law::{no_cause, one_expression, printed_expressions};
