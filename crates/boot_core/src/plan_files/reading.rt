//! The reading of a file.
ghost use Rattle.std.specs.Prelude.{◌≡◌, ℕ, List, IfOk};
ghost use Rattle.boot_core.specs.Reading.{IsLongFile, IsRead, Reads};

use boot_io::{FileFault, Files};
use boot_model::Line;
use pi_base::{OutOfMemory, Seq};
use std::alloc::Global;

/// Why files lead to nothing.
#[derive(Drop)]
pub enum NoJob {
    /// A refusal, by the line that it prints.
    Refused(Line),
    /// Want of memory.
    Memory,
}

impl From<OutOfMemory> for NoJob {
    ghost use Rattle.std.specs.Prelude.{◌≡◌};
    ghost use Rattle.boot_core.specs.declared.plan_files.reading.NoJob.TheVariants.{Memory};

    ghost from_gives = { λ _ fault. fault ≡ Memory };

    fn from(_want: OutOfMemory) -> NoJob {
        NoJob::Memory
    }
}

// A copy of a name, for the line that may name it.
fn kept(alloc: Global, name: &str) -> Result<Seq<u8>, OutOfMemory>
    ensures { IfOk result (λ copy. copy ≡ name.now) }
{
    let mut copy = Seq::new(alloc);
    copy.append(name.as_bytes())?;
    Ok(copy)
}

/// The content of a file of at most `limit` bytes. Its name is copied before it is read, so that a fault that was counted is never answered as want of memory.
pub fn read_file<F: Files>(
    alloc: Global,
    name: &str,
    limit: usize,
    files: &mut F,
) -> Result<Seq<u8>, NoJob>
    ensures same { (other : List ℕ) → F.told files.new other ≡ F.told files.old other }
    ensures row { Reads (IsRead (F.told files.old name.now) limit) (IsLongFile (F.told files.old name.now) limit name.now)
        (λ n. n ≡ name.now)
        (record { before = F.faults files.old; now = F.faults files.new; missed = F.missed files.new }) result }
{
    let kept = kept(alloc, name)?;
    let mut content = Seq::new(alloc);
    match files.read_whole(name, limit, &mut content) {
        Ok(()) => Ok(content),
        Err(FileFault::TooLong) => Err(NoJob::Refused(Line::RefusedLong { name: kept })),
        Err(FileFault::Failed) => Err(NoJob::Refused(Line::RefusedFile { name: kept })),
        Err(FileFault::Memory) => Err(NoJob::Memory),
    }
}
