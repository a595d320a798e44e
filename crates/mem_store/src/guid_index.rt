//! Entries in order, found by their GUID: an index beside lists that are kept elsewhere. For each GUID the places of its entries are kept, lowest
//! first: the next one from a place on is found by halving, the n-th at once, and an entry of another GUID takes the place of one by moving it from
//! one list to the other.

mod adding;
mod index;
mod reading;

pub use index::{GuidIndex, Indexed};
