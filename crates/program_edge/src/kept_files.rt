// What is kept of the files that a program reads.
ghost use Rattle.std.specs.Prelude.{◌≡◌};

use boot_io::{FileFault, Files, NamedFile};
use pi_base::{OutOfMemory, Seq};
use std::alloc::Global;
use std::{fs, str};

/// What the program keeps of a run.
#[derive(Clone, Copy, PartialEq, Eq)]
pub enum Keeping {
    /// What the words on standard error need.
    Words,
    /// Nothing.
    Nothing,
}

// How many files a command line names. They are read before all others.
const NAMED_FILES: usize = 2;

// The most bytes of a file that is copied. A longer one is read once more for a report on it.
const SHORT_FILE: usize = 0x1_0000;

/// A file that was asked for.
#[derive(Drop)]
pub struct AskedFile {
    /// Its name.
    pub name: Seq<u8>,
    /// The most bytes that it may have.
    pub limit: usize,
}

/// Files that keep copies of the short ones and the names of the long ones among the files that a command line names. If memory runs out, a file is not kept.
#[derive(Drop)]
pub struct KeptFiles<F: Files + Drop> {
    files: F,
    keeping: Keeping,
    count: usize,
    long: Seq<AskedFile>,
    kept: Seq<NamedFile>,
    refused: Option<AskedFile>,
}

// A copy of bytes.
fn copy_of(alloc: Global, bytes: &[u8]) -> Result<Seq<u8>, OutOfMemory> {
    let mut copy = Seq::new(alloc);
    copy.append(bytes)?;
    Ok(copy)
}

// Keeps a copy of a file that was read.
fn keep_copy(kept: &mut Seq<NamedFile>, name: &str, content: &[u8]) -> Result<(), OutOfMemory> {
    let alloc = kept.alloc();
    let name = copy_of(alloc, name.as_bytes())?;
    let content = copy_of(alloc, content)?;
    kept.push(NamedFile { name, content })
}

// A file that was asked for by its name.
fn asked_of(alloc: Global, name: &str, limit: usize) -> Result<AskedFile, OutOfMemory> {
    let name = copy_of(alloc, name.as_bytes())?;
    Ok(AskedFile { name, limit })
}

/// Whether a file of a name can be read again. What came through a pipe or from a device cannot.
pub(crate) fn is_lasting(rt: &HostRuntime, name: &str) -> bool {
    match fs::metadata(rt, name) {
        Ok(found) => found.is_file(),
        Err(_) => false,
    }
}

// Reads a file once more.
fn read_once_more<F: Files>(
    rt: &HostRuntime,
    files: &mut F,
    asked: &AskedFile,
    kept: &mut Seq<NamedFile>,
) -> Option<()> {
    let name = str::from_utf8(asked.name.as_slice()).ok()?;
    if !is_lasting(rt, name) {
        return None;
    }
    let mut content = Seq::new(kept.alloc());
    files.read_whole(name, asked.limit, &mut content).ok()?;
    let name = copy_of(kept.alloc(), name.as_bytes()).ok()?;
    kept.push(NamedFile { name, content }).ok()
}

impl<F: Files + Drop> KeptFiles<F> {
    /// Files that keep as much as `keeping` says.
    pub fn new(alloc: Global, files: F, keeping: Keeping) -> KeptFiles<F>
        ensures { result.files ≡ files }
    {
        KeptFiles {
            files,
            keeping,
            count: 0,
            long: Seq::new(alloc),
            kept: Seq::new(alloc),
            refused: None,
        }
    }

    /// Reads a long file of this name once more, and keeps it.
    pub fn read_again(&mut self, rt: &HostRuntime, name: &str) {
        for asked in self.long.as_slice() {
            if asked.name.as_slice() == name.as_bytes() {
                // What cannot be read again is left out.
                let _ = read_once_more(rt, &mut self.files, asked, &mut self.kept);
                return;
            }
        }
    }

    /// The contents that are kept, and the last file that was not read.
    pub fn into_kept(self) -> (Seq<NamedFile>, Option<AskedFile>) {
        (self.kept, self.refused)
    }

    // Keeps a file that was read, if it is one that the command line names.
    fn keep(&mut self, name: &str, limit: usize, content: &[u8]) -> Result<(), OutOfMemory>
        ensures { self.new.files ≡ self.old.files }
    {
        if self.keeping == Keeping::Nothing || self.count >= NAMED_FILES {
            return Ok(());
        }
        self.count += 1;
        if content.len() <= SHORT_FILE {
            return keep_copy(&mut self.kept, name, content);
        }
        let asked = asked_of(self.long.alloc(), name, limit)?;
        self.long.push(asked)
    }

    // Keeps what is known of a file that was not read.
    fn keep_refused(&mut self, name: &str, limit: usize)
        ensures { self.new.files ≡ self.old.files }
    {
        if self.keeping != Keeping::Nothing {
            self.refused = asked_of(self.kept.alloc(), name, limit).ok();
        }
    }
}

impl<F: Files + Drop> Files for KeptFiles<F> {
    ghost told = { λ s. F.told s.files };

    ghost faults = { λ s. F.faults s.files };

    ghost missed = { λ s. F.missed s.files };

    fn read_whole(
        &mut self,
        name: &str,
        limit: usize,
        into: &mut Seq<u8>,
    ) -> Result<(), FileFault> {
        let before = into.len();
        let answer = self.files.read_whole(name, limit, into);
        match answer {
            Ok(()) => {
                if let Some(content) = into.as_slice().get(before..) {
                    // A copy that finds no memory is left out.
                    let _ = self.keep(name, limit, content);
                }
            }
            Err(_) => self.keep_refused(name, limit),
        }
        answer
    }
}
