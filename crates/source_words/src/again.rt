//! Words that are printed of numbers, GUIDs and bytes, and a line that is put together of words: what is read of them.

mod law;

pub use law::values;
