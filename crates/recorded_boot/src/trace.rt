//! Whether a text is the trace of a boot of a plan in which the dispatchers chose freely. The boot prints into the text (`Spelled`), which accepts each piece
//! up to the first byte that differs. Whenever a module is to be chosen, the text's next line names it.
//!
//! Tested by `scripts/check-traces`, and in `boot_trials`: `held_text`.

mod by_text;
mod bytes;
mod checking;
mod following;
mod parted;
mod spelled;
mod text_law;
mod text_start;
mod verdict;

pub use by_text::ByText;
pub use checking::{CheckFault, check};
pub use parted::Parted;
pub use spelled::Spelled;
pub use text_law::text_tells;
pub use text_start::next_start;
pub use verdict::Verdict;
