//! DXE from its opening to its end (PI 1.8, volume 2, "DXE Dispatcher"): the core's steps, and where it has none left the next driver, or the stop. A choice
//! that is handed in may name the driver, and may bar one. Which driver is next a queue says: the head of those that are scheduled, or the first of the
//! group of the first eligible driver in discovered order, which the index of the waiting drivers tells.
//!
//! A choice that wants to know is told whose turn it is in the order of EDK2's dispatcher: `passes` keeps the queue that this dispatcher would have.
//!
//! Tried in `boot_trials`: `tests`, and in `choice_trials`: `drivers`.
#![tactic(auto)]

mod aim;
mod answer;
mod boot;
mod choose;
mod group;
mod index;
mod licence;
mod passes;
mod queue;
mod root;
mod stop;
mod tell;
mod turns;
mod waiting;
mod waits;
mod watch;
mod watched;

pub use answer::{Step, Turn};
pub use boot::{Barred, Ended, Left, dxe_at_opening, watch_boot};
pub use passes::{Agenda, PassQueue};
pub use queue::DriverQueue;
pub use root::target_of;
pub use turns::turn_by;
pub use waiting::reason_of;
pub use watch::{DxeWatch, Unwatched};
pub use watched::{bound, watch_dxe};
