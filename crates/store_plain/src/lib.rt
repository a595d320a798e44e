//! The store of PEI services over plain lists: slow and simple, the reference for the stores in bytes. `PlainStore` promises what the trait `PeiStore` does,
//! for one state. Begin with `store` and `pei_store`.
//!
//! Tested in `heap_trials`: `store`, `readings`, `refusals`.
#![tactic(auto)]

mod behind;
mod descriptor;
mod heap_byte;
mod hob;
mod install;
mod length;
mod memory;
mod migration;
mod nodes;
mod notify;
mod pairs;
mod peek;
mod pei_store;
mod plain_hob;
mod pool;
mod queue;
mod reading;
mod room;
mod store;
mod sweep;
mod word_bytes;

pub use store::PlainStore;
