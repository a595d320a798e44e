//! Action scripts: the modules' code in this project, as bytes (own). `read_script` returns the script that the bytes are, or their first fault, and reads
//! again what `write_script` writes. Begin with `action` and `reading`.
//!
//! Tested in `text_trials`: `scripts`.
#![tactic(auto)]

mod action;
mod action_operands;
mod action_reading;
mod action_writing;
mod block;
mod byte_source;
mod code;
mod common_operands;
pub mod descriptor_kind;
mod dxe_operands;
mod fault;
mod header;
mod index;
mod laws;
mod operand;
mod operands;
mod pei_operands;
mod reading;
mod script;
mod source;
mod writing;

pub use action::{Action, GuidArg};
pub use action_operands::Operand;
pub use block::MOST_ACTIONS;
pub use code::{CODES, Code};
pub use fault::{ActCause, ActFault, WriteFault};
pub use header::{MAGIC, MOST_BLOCKS, MOST_SCRIPT};
pub use index::{REGISTERS, ends_in_ret, has_room, is_ret, names_below};
pub use laws::{one_outcome, operand_by_operand};
pub use operand::{MOST_BYTES, MOST_REGISTERS, Unread, are_printable, is_hob};
pub use operands::read_operands;
pub use reading::read_script;
pub use script::Script;
pub use source::Source;
pub use writing::write_script;
