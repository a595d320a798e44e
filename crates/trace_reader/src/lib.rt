//! The reader of a boot's printed lines. `read_trace` returns the one list of lines that has this text, or its first bad line. Begin with `trace`.
//!
//! Tested in `boot_trials`: `traces`.
#![tactic(auto)]

mod audit_line;
mod byte_line;
mod call_line;
mod count_line;
mod end_line;
mod entry_line;
mod expression_word;
mod fault;
mod field;
mod fixed_word;
mod hex_word;
mod line;
mod move_line;
mod name_word;
mod notify_line;
mod number;
mod reading_law;
mod refusal_line;
mod starting_line;
mod trace;

pub use fault::TraceFault;
pub use reading_law::one_reading;
pub use starting_line::start_line;
pub use trace::read_trace;
