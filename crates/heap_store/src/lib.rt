//! The store of PEI services in the bytes of physical memory: it keeps no list, and walks those that stand in the heap. With it the move of the heap to permanent memory, after which what named a place of the old heap or of the page region names the same place of the new (PI 1.8, volume 1, "Installing PEI Memory").
//!
//! Tried in `heap_trials`: `calls`, `store`.
#![tactic(auto)]

mod chain;
mod copy;
mod core_install;
mod course;
mod descriptor;
mod handoff;
mod header;
mod hob;
mod install;
mod memory;
mod migration;
mod moved_descriptor;
mod moved_hobs;
mod moved_node;
mod notify;
mod peek;
mod pool;
mod queue;
mod reading;
mod relocation;
mod store;
mod sweep;
mod words;

pub use relocation::migrate;
pub use store::HeapStore;
