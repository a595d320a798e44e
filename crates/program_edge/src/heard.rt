// What is known of a run, to report on it.
ghost use Rattle.std.specs.Prelude.{◌≡◌, List, ℕ, IfSome, option_copied};
ghost use Rattle.boot_io.specs.MemFiles.{content_of};

use crate::kept_files::{AskedFile, KeptFiles};
use crate::kept_lines::KeptLines;
use crate::kept_text::KeptText;
use crate::noted_volumes::NotedVolume;
use boot_io::{Files, NamedFile};
use pi_base::Seq;
use std::io::Write;
use std::str;

/// What is known of a run, to report on it.
#[derive(Drop)]
pub struct Heard {
    /// The files that the command line names, as far as they are kept.
    pub files: Seq<NamedFile>,
    /// The last file that was not read.
    pub refused: Option<AskedFile>,
    /// Lines of the text that left. None if memory ran out for an output.
    pub lines: Option<KeptLines>,
    /// The modules without a script, if they were noted.
    pub noted: Option<Seq<NotedVolume>>,
}

// The content of the first file of a name.
fn content_under<'a>(files: &'a [NamedFile], name: &str) -> Option<&'a [u8]>
    ensures { option_copied result ≡ content_of files.now name.now }
{
    for file in files {
        if file.name.as_slice() == name.as_bytes() {
            return Some(file.content.as_slice());
        }
    }
    None
}

impl Heard {
    /// What a run's files and output kept. There is no output if memory ran out for one.
    pub fn new<F: Files + Drop, W: Write + Drop>(
        files: KeptFiles<F>,
        output: Option<KeptText<W>>,
        noted: Option<Seq<NotedVolume>>,
    ) -> Heard {
        let (files, refused) = files.into_kept();
        let lines = match output {
            Some(output) => output.into_lines(),
            None => None,
        };
        Heard {
            files,
            refused,
            lines,
            noted,
        }
    }

    /// The content of a file that the command line names, if it is kept.
    pub fn content(&self, name: &str) -> Option<&[u8]>
        ensures { option_copied result ≡ content_of self.now.files name.now }
    {
        content_under(self.files.as_slice(), name)
    }

    /// The last line of the text that left, if it is text.
    pub fn last(&self) -> Option<&str> {
        match &self.lines {
            Some(lines) => str::from_utf8(lines.last()).ok(),
            None => None,
        }
    }

    /// The line before the last, if it is text.
    pub fn before_last(&self) -> Option<&str> {
        match &self.lines {
            Some(lines) => str::from_utf8(lines.before()).ok(),
            None => None,
        }
    }

    /// The lines of a boot that are kept, if all that are needed were.
    pub fn boot(&self) -> Option<&[u8]> {
        match &self.lines {
            Some(lines) => lines.boot(),
            None => None,
        }
    }
}
