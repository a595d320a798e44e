//! Actions of scripts in the words of a volume's text (own format): numbers in decimal or hexadecimal, GUIDs as people write them, and for each line that is none its cause.
//!
//! Tried in `volume_trials`: `action_lines`, `volume_texts`.

mod action;
mod fault;
mod law;
mod line;
mod list;
mod operand;
mod script;
mod word;
mod word_source;

pub use action::read_action;
pub use fault::{LineFault, Stop};
pub use law::printed_actions;
pub use script::{ScriptCause, ScriptFault, whole_script};
