//! The index of the parts that wait, by the GUIDs that they wait for. `next` returns the first part from a cursor on that may start; an expression is evaluated
//! when its part is discovered, and again only after one of its GUIDs was installed or removed. Begin with `index` and `specs/Index`. A `PlaceSet` is searched
//! block by block, so 64 places that are not in the set cost one look.
//!
//! Tested in `choice_trials`: `place_sets`, `drivers`.
#![tactic(auto)]

mod add;
mod build;
mod change;
mod discover;
mod index;
mod installed;
mod laws;
mod place_set;
mod places;
mod rouse;
mod search;
mod settle;
mod standing;
mod verdict;
mod watch;

pub use index::WaitIndex;
pub use installed::Installed;
pub use laws::{
    asked_are_those_of_the_bound_in_dxe, asked_are_those_of_the_bound_in_pei,
    next_is_the_first_eligible_driver, next_is_the_next_peim, truth_asks_what_is_pushed,
};
pub use place_set::PlaceSet;
pub use search::MOST_PLACES;
pub use verdict::Verdict;
