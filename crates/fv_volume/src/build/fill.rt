//! Bytes between what is written.
ghost use Rattle.std.specs.Prelude.{◌≡◌, ◌<◌, ◌++◌, OnOk, replicate};
ghost use Rattle.fv_volume.specs.Placing.{gap};

use pi_base::{OutOfMemory, Seq};

/// How many bytes are appended at once.
const CHUNK: usize = 64;

/// How many bytes there are from an offset to the next multiple of an alignment.
pub fn gap(alignment: usize, at: usize) -> usize
    requires { 0 < alignment }
    ensures { result ≡ gap alignment at }
{
    (alignment - at % alignment) % alignment
}

/// Adds so many copies of a byte.
pub(crate) fn fill(out: &mut Seq<u8>, count: usize, byte: u8) -> Result<(), OutOfMemory>
    ensures { OnOk result (out.new ≡ out.old ++ replicate count byte) }
{
    let chunk = [byte; CHUNK];
    let mut left = count;
    'chunks: while left >= CHUNK {
        out.append(&chunk)?;
        left -= CHUNK;
    }
    out.append(&chunk[..left])
}
