// A sink for lines that nobody reads.

use boot_io::{Sink, SinkFault};

/// Drops what is put, and never fails.
#[derive(Drop)]
pub struct Nowhere;

impl Sink for Nowhere {
    ghost use Rattle.std.specs.Prelude.{None};

    ghost text = { λ _. None };

    ghost faults = { λ _. 0 };

    fn put(&mut self, piece: &[u8]) -> Result<(), SinkFault> {
        Ok(())
    }
}
