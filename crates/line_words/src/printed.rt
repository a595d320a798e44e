//! The words of a printed text, read back, each as the value of which it is the print (own): numbers and GUIDs, and the lines that line feeds end.

mod guid;
mod number;
mod place;

pub use guid::guid_of;
pub use number::{decimal_of, hexadecimal_of};
pub use place::{LINE_FEED, behind, first_line};
