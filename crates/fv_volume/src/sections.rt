//! Sections of a file: what is in a stream of them, or the first thing that is wrong.

mod fault;
mod law;
mod section;
pub mod section_header;
pub mod section_type;
mod stream;

pub use fault::{SecCause, SecFault};
pub use law::{one_reading, places};
pub use section::Section;
pub use stream::{ALIGNMENT, MOST_SECTIONS, read_sections};
