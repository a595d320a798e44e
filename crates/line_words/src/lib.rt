//! The lines, words and numbers of texts: those that a person writes, and in `printed` those that the project prints (own formats). Each call finds exactly the
//! lines, words and numbers of a text; a printed word is read as the one value that prints it. Begin with `line` and `words`.
//!
//! Tested in `text_trials`: `plans`; in `boot_trials`: `traces`.
#![tactic(auto)]

mod line;
mod number;
pub mod printed;
mod words;

pub use line::{first_line, is_passed_over, place_of};
pub use number::number_of;
pub use words::{first_word, is_plain, is_printable};
