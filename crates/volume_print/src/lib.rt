//! The text of a volume that a reader accepts (own format, that of `volume_text`): what each line says of it.
//!
//! Tried in `volume_trials`: `printed_volumes`.
#![tactic(auto)]

mod file;
mod form;
mod inner;
mod law;
mod pad;
mod place;
mod section;
mod text;
mod tree;
mod volume;
mod word;

pub use law::one_text;
pub use text::text_of;
