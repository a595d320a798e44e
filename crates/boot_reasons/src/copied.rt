// A copy of numbers.
ghost use Rattle.std.specs.Prelude.{◌≡◌, IfOk};

use pi_base::{OutOfMemory, Seq};
use std::alloc::Global;

/// These numbers.
pub(crate) fn copied(alloc: Global, numbers: &[u32]) -> Result<Seq<u32>, OutOfMemory>
    ensures { IfOk result (λ copy. copy ≡ numbers.now) }
{
    let mut copy = Seq::new(alloc);
    copy.append(numbers)?;
    Ok(copy)
}
