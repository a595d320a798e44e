//! A boot, explained: why each module started and what it needed, and why another one never did; and what a dependency expression asks for, the GUIDs that it pushes.
//! It is a boot by a choice that is handed in; where the first module that may start does, it is that of the machine itself. What is told of it are lists over the machines of its run (PI 1.8, volumes 1 and 2).
#![tactic(auto)]

mod asking;
mod copied;
mod dxe;
mod dxe_held;
mod dxe_turn;
mod explain;
mod givers;
mod laws;
mod moves;
mod needs;
mod noted;
mod nowhere;
mod pei;
mod pei_held;
mod pei_turn;
mod plan;
mod told;
mod waiters;

pub use asking::asked;
pub use explain::explain_by;
pub use laws::{explained_is_a_boot, one_explanation, own_boot_is_explained};
pub use nowhere::Nowhere;
pub use plan::{explain_plan, explain_plan_by};
