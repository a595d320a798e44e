//! Tests of whole boots, over the store of the program and over plain lists; of explained boots, whose reasons were worked out by hand; and of printed lines
//! that are read again or compared with a text. Begin with `tests`.
#![tactic(auto)]

mod over_lists;

pub use over_lists::boot_over_lists;

#[cfg(test)]
mod held_text;
#[cfg(test)]
mod tests;
#[cfg(test)]
mod traces;
