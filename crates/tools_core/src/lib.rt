//! The tools, from the words of a command line to their text: `check`, `follow`, `passes`, `hobs`, `explain`, `gcd`, `mp`, `volume`, `text`, `asm` and `dis`.
//! `tools_main` promises that the text and the status are exactly those that the definitions give for this command line and these file contents. Begin with
//! `tools` and `specs/Outcome`.
//!
//! Tested by `scripts/check-tools`.
#![tactic(auto)]

mod by_starts;
mod check_tool;
mod command_line;
mod explain_tool;
mod follow_print;
mod follow_tool;
mod gcd_tool;
mod held_text;
mod hobs_tool;
mod laws;
mod mp_tool;
mod passes_tool;
mod plan_tool;
mod print;
mod reading;
mod report;
mod source_refusal;
mod status;
mod text_tool;
mod told_tool;
mod tools;
mod trace_tool;
mod turn_tool;
mod volume_tool;

pub use status::ToolStatus;
pub use tools::{tools_and_print, tools_main};
