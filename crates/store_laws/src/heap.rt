//! Laws of the heap's bytes: the image of a state by its parts, what each service writes of it, and what is read from it. Each is a function without a body.

mod answer_laws;
mod change_laws;
mod hob_laws;
mod image_laws;
mod link_laws;
mod memory_laws;
mod move_laws;
mod read_laws;
mod walk_laws;

pub use answer_laws::lists_told;
pub use change_laws::bodies_changed;
pub use hob_laws::{hobs_added, texts_written};
pub use image_laws::{bodies_spelled, image_facts};
pub use link_laws::{heads_moved, nodes_linked};
pub use memory_laws::memory_read;
pub use move_laws::heap_shifted;
pub use read_laws::{descriptors_read, handoff_read, hobs_told, nodes_read};
pub use walk_laws::walks_give_hobs;
