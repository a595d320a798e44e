// What opens files by name.
ghost use Rattle.std.specs.Prelude.{ℕ, List, Option, None, IfOk};
ghost use Rattle.boot_io.specs.Files.{HasLeft};

use std::fs::{self, OpenFile};
use std::io::{self, Read};

/// What opens files to be read, by name.
pub trait Folder {
    /// An open file.
    type File: Read + Drop;

    /// The content under a name, if it is known beforehand.
    ghost content: { Self → List ℕ → Option (List ℕ) };

    /// Opens the file of a name at its start.
    fn open(&self, name: &str) -> io::Result<Self::File>
        ensures { IfOk result (λ file. HasLeft (content self.now name.now) (Self.File.remaining file)) };

    /// How many bytes an open file is likely to have, or 0.
    fn len_of(&self, file: &Self::File) -> u64;
}

/// The folder in which the program runs, by a runtime of std. No content is known beforehand.
impl<R: std::rt::Files> Folder for &R {
    type File = R::File;

    ghost content = { λ _ _. None };

    fn open(&self, name: &str) -> io::Result<R::File> {
        fs::open(*self, name)
    }

    fn len_of(&self, file: &R::File) -> u64 {
        match file.metadata() {
            Ok(metadata) => metadata.len(),
            Err(_) => 0,
        }
    }
}
