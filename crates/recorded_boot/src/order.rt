//! The order of the starts of a boot (own): its text, which names each start by its phase, its volume and its file name, and says whether the boot stops after
//! the last. `Names` finds the module of a volume and a file name, and `order_of` takes the order from printed lines. Laws say that the order determines all
//! that the dispatchers were free to choose.
//!
//! Tested by `example_boot` and `scripts/check-traces`.

mod fault;
mod guids;
mod keyword;
mod laws;
mod line;
mod lines;
mod names;
mod order;
mod printed_start;
mod start_laws;
mod word;

pub use fault::OrderFault;
pub use guids::names_are_guids;
pub use laws::one_reading;
pub use line::{Asked, AskedStart, Start};
pub use lines::{StartOrder, read_order};
pub use names::{Names, NamesFault};
pub use order::order_of;
pub use printed_start::start_of;
pub use start_laws::{one_dxe_step, one_pei_step, order_is_of_starts, starts_count, starts_lead};
