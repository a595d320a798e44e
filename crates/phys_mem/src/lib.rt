//! Physical memory as regions of bytes: temporary RAM, RAM, and volumes that can only be read. Each call reads or writes exactly the bytes of one region, and a
//! refused call changes nothing; if two regions overlap, the first of them counts. Begin with `memory`.
//!
//! Tested in `heap_trials`, below the stores.
#![tactic(auto)]

mod bank;
mod memory;
mod rom;
mod stretch;
mod window;

pub use memory::PhysMem;
pub use rom::Rom;
pub use stretch::Stretch;
