//! The model of a store: the HOBs, PPIs and notifications of PEI, the services over them, the move to permanent memory, and the handles of DXE. The trait
//! `PeiStore` promises for each call what its service returns, and the state after it. Begin with `store`, and with `specs/StoreState` and `specs/Service`.
#![tactic(auto)]

mod handle_laws;
mod interface;
mod layout;
mod limits;
mod state;
mod store;
mod store_handle;

pub use handle_laws::{handle_services_keep_facts, located_handle_is_lowest};
pub use interface::Interface;
pub use layout::{DESCRIPTOR_LEN, INLINE_DESCRIPTOR_LEN, NODE_LEN};
pub use limits::NOTE_NUMBERS;
pub use state::{AllocationBody, Body, CORE, DescriptorBody, Entry, HobEntry, Pending};
pub use store::PeiStore;
pub use store_handle::{
    Desc, DescKind, EntryList, EntryTold, Firing, GuidFrom, HobSpan, Pool, StoreFault, Sweep,
};
