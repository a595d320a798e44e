//! The memory space map of the global coherency domain, made from a HOB list, and the commands on it (PI 1.8, volume 2, "Global Coherency Domain Services").
//! After any commands each address has the state that the last accepted command on it gave it, and a refused command changes nothing. Begin with `map` and
//! `hobs`; attributes, owners and I/O space are left out.
//!
//! Tested in `text_trials`: `map_commands`, `map_faults`, `memory_map`.
#![tactic(auto)]

mod change;
mod command;
mod commands;
mod fault;
mod fill;
mod hob;
mod hobs;
mod map;
mod need;
mod perform;
mod print;
mod range;
mod search;
mod state;
mod text_word;
mod walk;
mod word;

pub use command::{ALIGN_END, Command, read_command};
pub use commands::{CommandFault, one_reading, read_commands};
pub use fault::{GcdCause, GcdFault};
pub use hobs::{MOST_BYTES, from_hobs, one_space};
pub use map::{GcdMap, LEAST_BITS, MOST_ALIGN, MOST_BITS, one_map};
pub use perform::Answer;
pub use print::{
    put_answer, put_answers, put_command_refusal, put_hobs_refusal, put_map, put_range,
};
pub use range::GcdRange;
pub use state::{GcdKind, SpaceState};
pub use word::GcdWord;
