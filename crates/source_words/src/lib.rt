//! The words of a volume's text (own format): what stands between blanks and brackets, GUIDs as people write them, and keywords in any case.
//!
//! Tried in `volume_trials`: `action_lines`.
#![tactic(auto)]

pub mod again;
pub mod depex;
mod guid;
pub mod script;
mod word;

pub use guid::guid_of;
pub use word::{is_keyword, next_word};
