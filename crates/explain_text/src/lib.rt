//! A boot, explained, as lines: its starts and what each needed, the parts that never started and what they lack, and its end.
//!
//! Tried by `scripts/check-tools`.
#![tactic(auto)]

pub mod catalog;
mod context;
mod end_lines;
mod flags;
mod givers;
mod held_lines;
mod keyword;
mod left_lines;
mod reasons;
mod start_lines;
mod text;
mod ways;

pub use held_lines::MOST_TOLD;
pub use reasons::{Begun, Explained, Giver, Held, Moved, Need};
pub use text::put_explained;
pub use ways::{Change, a_way_is_enough, change_for, each_guid_once, would_makes_it_hold};
