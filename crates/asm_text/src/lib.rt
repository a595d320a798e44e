//! Dependency expressions and action scripts as text, both ways (own). `parse_depex` and `parse_script` return the one expression or script of a text, or its
//! first bad line, and read again what `print_depex` and `print_script` print. Begin with `depex_text` and `script_text`.
//!
//! Tested in `text_trials`: `expressions_as_text`, `scripts_as_text`.
#![tactic(auto)]

mod action_text;
mod depex_reading;
mod depex_text;
mod draft;
mod fault;
mod front;
mod line_reading;
mod line_source;
mod list_reading;
mod operand_reading;
mod script_reading;
mod script_text;
mod text_law;
mod token;
mod tree_reading;
mod tree_text;
mod word;

pub use action_text::put_action;
pub use depex_reading::parse_depex;
pub use depex_text::print_depex;
pub use fault::TextFault;
pub use line_reading::code_named;
pub use script_reading::parse_script;
pub use script_text::print_script;
pub use text_law::{one_bad_line, one_expression, one_script, scripts_of_bytes};
