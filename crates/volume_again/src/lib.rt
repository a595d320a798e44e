//! What is built of a volume's files is read as these files, and the text of a volume as a volume with the same files.
#![tactic(auto)]

mod law;

pub use law::{
    built_again, made_again, made_of_its_text, read_again, refused_for_room, text_again,
};
