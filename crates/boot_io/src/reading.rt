// Reads all that a reader of std has left into a list.
ghost use Rattle.std.specs.Prelude.{◌≡◌, ◌≤◌, ◌+◌, ◌≢◌, ◌++◌, ℕ, List, OnOk, IfErr};
ghost use Rattle.std.specs.Io.KnownBytes.{Consumes, IsAtEnd};
ghost use Rattle.boot_io.specs.{declared.files.FileFault.TheVariants.TooLong, Files.IntoAfter};

use crate::FileFault;
use crate::again::{TRIES, may_get_through};
use pi_base::Seq;
use std::io::{ErrorKind, Read};
use std::mem;

// Reads on after some bytes until the reader ends. What was read before a fault stays.
fn read_on<R: Read>(reader: &mut R, bytes: &mut Vec<u8>) -> Result<(), FileFault>
    ensures read { (more : List ℕ) × (bytes.new.items ≡ bytes.old.items ++ more)
        × Consumes (R.remaining reader.old) (R.remaining reader.new) more }
    ensures end { OnOk result (IsAtEnd (R.remaining reader.new)) }
    ensures fault { IfErr result (λ fault. fault ≢ TooLong) }
{
    let mut tries = TRIES;
    'reads: loop {
        match reader.read_to_end(bytes) {
            Ok(_) => return Ok(()),
            Err(fault) if tries > 0 && may_get_through(&fault) => tries -= 1,
            Err(fault) if fault.kind() == ErrorKind::OutOfMemory => return Err(FileFault::Memory),
            Err(_) => return Err(FileFault::Failed),
        }
    }
}

// Reads what is left after some bytes, up to one byte more than the limit.
fn read_behind<R: Read + Drop>(
    reader: R,
    limit: usize,
    bytes: &mut Vec<u8>,
) -> Result<(), FileFault>
    ensures { IntoAfter result (R.remaining reader) limit bytes.old.items bytes.new.items }
{
    let start = bytes.len();
    match read_on(&mut reader.take((limit as u64).saturating_add(1)), bytes) {
        Ok(()) => {}
        Err(fault) => return Err(fault),
    }
    let count = bytes.len() - start;
    if count > limit {
        bytes.truncate(start);
        return Err(FileFault::TooLong);
    }
    // No list can hold so many bytes, so the limit of one more byte cannot be tested.
    if count == usize::MAX {
        return Err(FileFault::Memory);
    }
    Ok(())
}

/// Appends all that a reader has left. If that is longer than `limit` bytes, it returns `TooLong` after reading `limit` + 1, and the list is unchanged. Room
/// for `likely` bytes is reserved first. `Failed` means an error of the reader; an interrupted call, or one that would have blocked, is made again. `Memory`
/// means that memory ran out. After `Failed` or `Memory` the list has a beginning of what was left.
pub fn read_within<R: Read + Drop>(
    reader: R,
    likely: u64,
    limit: usize,
    into: &mut Seq<u8>,
) -> Result<(), FileFault>
    // The content is what the reader has left, by its own contract.
    ensures { IntoAfter result (R.remaining reader) limit into.old into.new }
{
    let alloc = into.alloc();
    let mut bytes = mem::replace(into, Seq::new(alloc)).into_vec();
    let answer = match bytes.reserve(room_for(likely, limit)) {
        Ok(()) => read_behind(reader, limit, &mut bytes),
        Err(_) => Err(FileFault::Memory),
    };
    *into = Seq::from_vec(bytes);
    answer
}

// How many bytes to take room for: those that are likely, within the limit, and one that shows that there are no more.
fn room_for(likely: u64, limit: usize) -> usize
    ensures { result ≤ limit + 1 }
{
    likely.min(limit as u64).saturating_add(1) as usize
}
