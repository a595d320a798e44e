//! Hand-off blocks (HOBs) as bytes (PI 1.8, volume 3, hand-off blocks). `encode_into` writes a HOB's exact bytes, `read_at` reads them again, and `walk`
//! returns the places of a HOB list, or its first fault. Begin with `hob` and `read`.
//!
//! Tested in `heap_trials`: `hobs`.
#![tactic(auto)]

mod body;
mod encode;
mod fault;
mod field;
mod hob;
pub mod kind;
mod length;
mod list;
mod read;

pub use body::{HANDOFF_VERSION, hob_of};
pub use encode::encode_into;
pub use fault::HobFault;
pub use hob::{Handoff, Hob};
pub use length::{
    ALLOCATION_LEN, CPU_LEN, HANDOFF_LEN, HEADER_LEN, MOST_LEN, NAMED_LEN, RESOURCE_LEN,
    VOLUME_LEN, VOLUME2_LEN, hob_len,
};
pub use list::{HobPlace, one_walk, walk};
pub use read::{read_at, round_trip};
