//! Numbers by GUID, for instance the places of each GUID in a list. For each GUID the numbers are in ascending order, each once; a call that runs out of memory
//! leaves them unchanged. Begin with `GuidLists` in `lists`: it finds a GUID by a hash and a number by halving, and a change moves only the later numbers of
//! its GUID.
//!
//! Tested in `heap_trials`: `guid_indexes`; in `choice_trials`: `calls`.
#![tactic(auto)]

mod lists;

pub use lists::GuidLists;
