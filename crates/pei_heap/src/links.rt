//! The linked nodes of PPIs, notifications and queued pairs in the heap.
//!
//! Tested in `heap_trials`, below `heap_store`.

mod descriptor;
mod entry;
mod guid;
mod has;
mod heads;
mod node;
mod pairs;
mod popping;
mod pushing;
mod reading;
mod renaming;
mod sweep;
mod walk;

pub use descriptor::{DescRead, guid_of, kind_of, number_of, read_descriptor};
pub use entry::NewEntry;
pub use guid::same_guid;
pub use has::links_told;
pub use heads::Heads;
pub use node::{Node, nth_node};
pub use pairs::{count_new_pairs, count_pairs, pairs_stay, push_new_pairs, push_pairs};
pub use popping::pop;
pub use pushing::push;
pub use reading::{entry_behind, has_ppi, note_at, nth_ppi, pending_at, ppi_at};
pub use renaming::{PpiFound, find_ppi, rename, replace};
pub use sweep::next_match;
