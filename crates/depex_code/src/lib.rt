//! Dependency expressions (DEPEX): their bytes, their trees, and whether they hold (PI 1.8, volume 1, "Dependency Expressions"). `read_depex` returns the one
//! expression at the front of the bytes, or the offset of the first opcode that fails; `Tree::holds` gives its truth over a set of GUIDs, and counts one step.
//! Begin with `reading`, and with `specs/Expression`.
//!
//! Tested in `text_trials`: `expressions`.
#![tactic(auto)]

mod depex;
mod depth;
mod fault;
mod instruction;
mod laws;
mod opcode;
pub mod opcode_byte;
mod reading;
mod set;
mod steps;
mod tree;
mod truth;
mod values;
mod writing;

pub use depex::Depex;
pub use fault::DepexFault;
pub use laws::{one_reading, one_tree};
pub use opcode::Opcode;
pub use reading::{MOST_OPCODES, read_depex};
pub use set::GuidSet;
pub use steps::Steps;
pub use tree::Tree;
pub use writing::write_depex;
