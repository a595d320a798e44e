//! What a catalogue has, as lines for an explanation: each module with its name, from the user interface section of its file, and of each of its parts the
//! expression and the GUIDs that its script may install.
//!
//! Tried in `volume_trials`: `images`, `titles`.

mod expression;
mod file;
mod gives;
mod laws;
mod line;
mod lines;
mod mapped;
mod name;
mod title;
mod title_law;
mod word;

pub use gives::given_in;
pub use laws::{given_are_named, one_catalog_text};
pub use line::{end_line, put_front, put_line, put_word};
pub use lines::{phase_word, put_catalog};
pub use title::title_of;
pub use title_law::one_title;
pub use word::put_title;
