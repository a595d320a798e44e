//! A boot compared with a recorded one. `check` (`trace`) answers whether a text is the trace of a boot in which the dispatchers chose freely, and `follow`
//! boots along an order of starts (`order`), up to the first start that is not possible; `passes` boots in the order of EDK2's dispatchers, and `handing_on` has what PEI then hands on. These boots obey the laws of the phases (`laws`). Begin with
//! `specs/Verdict` and `specs/Following`.
#![tactic(auto)]

pub mod follow;
pub mod handing_on;
mod laws;
pub mod order;
pub mod passes;
pub mod trace;

pub use laws::{followed_is_lawful, yes_is_lawful};
