//! The printed lines of a boot, put to a sink.
//!
//! Tried in `boot_trials`: `traces`.
#![tactic(auto)]

mod entry_list;
mod fixed_word;
mod gather;
mod heap_bytes;
mod hob_bytes;
mod hob_line;
pub mod keywords;
mod line;
pub mod marks;
mod number_word;
mod piece;
mod start;
mod store_hobs;
mod store_lists;
mod word_list;

pub use entry_list::count_ppis;
pub use fixed_word::{FixedWord, licence_word, reason_word, run_end_word};
pub use hob_bytes::hob_list;
pub use line::{put, put_all, put_made, put_refused_file, put_refused_long};
pub use number_word::{decimal_word, hexadecimal_word};
pub use start::put_start;
pub use store_hobs::{HobCount, count_hobs};
pub use store_lists::put_store_lists;
