//! The text of a boot plan (own format): the memory, the volumes, the fuel and the early pages of a boot. `read_plan` returns the one plan that the text
//! spells, or its first fault with the line. Begin with `plan` and `read`.
//!
//! Tested in `text_trials`: `plans`.
#![tactic(auto)]

mod draft;
mod entry;
mod fault;
mod finish;
mod form;
mod limits;
mod plan;
mod read;

pub use fault::{PlanCause, PlanFault};
pub use limits::{
    DEFAULT_FUEL, LEAST_ADDRESS, LEAST_RAM, LEAST_TEMP, MOST_END, MOST_FUEL, MOST_NAME, MOST_PAGES,
    MOST_PLAN_VOLUMES, MOST_RAM, MOST_TEMP, VOLUME_ALIGNMENT,
};
pub use plan::{Plan, PlanVolume};
pub use read::{one_reading, read_plan};
