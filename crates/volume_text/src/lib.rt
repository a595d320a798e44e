//! Firmware volumes from texts that people write (own format): what each line says, and the bytes of the volume that the lines describe, or the first line at fault.
//!
//! Tried in `volume_trials`: `volume_texts`.
#![tactic(auto)]

mod bytes;
mod counted;
mod fault;
mod keyword;
mod law;
mod line;
mod script;
mod statement;
mod step;
mod text;
mod user_interface;
mod volume;
mod word;

pub use fault::{Cause, Fault, TextFault};
pub use law::{again, built_or_refused, one_volume, said_is_read};
pub use statement::Statement;
pub use step::MOST_INSIDE;
pub use text::volume_of;
pub use user_interface::ui_name;
pub use volume::{depex_type, has_part, is_script};
