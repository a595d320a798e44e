//! A boot over a store, from its first line to its last: PEI, DXE behind a hand-off, the lists, the handles and the result; where several modules may start, a choice that is handed in says which, and a module that it does not let starts nothing: the boot is left there.
//!
//! Tried in `boot_trials`: `tests`.

mod behind;
mod board;
mod boot;
mod closing;
mod first;
mod free;
mod watch;

pub use board::roms;
pub use boot::{Booted, Ran, boot_by_choice};
pub use closing::put_closing;
pub use first::boot_store;
pub use free::choices_are_free;
pub use watch::{Watch, nobody};
