//! The PEI core over any store (PI 1.8, volume 1, "PEI Foundation"). `Pei::step` and `Pei::start` do one step of the boot machine, print its lines, and say
//! which GUIDs and volumes changed. Begin with `pei`, `step` and `action`.
//!
//! Tested in `boot_trials`: `tests`.
#![tactic(auto)]

mod act;
mod action;
mod address;
mod core_state;
mod descriptors;
mod event;
mod fire;
mod guids;
mod hobs;
mod memory;
mod move_memory;
mod names;
mod new_descriptors;
mod notifications;
mod pei;
mod pools;
mod ppis;
mod queue;
mod reports;
mod start;
mod states;
mod step;
mod taken;

pub use action::take_own;
pub use descriptors::MOST_DESCRIPTORS;
pub use event::{Again, Event, Stepped};
pub use guids::Changes;
pub use pei::Pei;
pub use reports::put_reports;
pub use taken::{Reply, Taken};
