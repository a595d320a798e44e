//! A sink for the lines of a boot of which the reasons alone are wanted.
use boot_io::{Sink, SinkFault};

/// Drops what is put, and never fails. A choice that is explained looks into none other.
#[derive(Drop)]
pub struct Nowhere;

impl Sink for Nowhere {
    ghost use Rattle.std.specs.Prelude.{None};

    ghost text = { λ _. None };

    ghost faults = { λ _. 0 };

    fn put(&mut self, _piece: &[u8]) -> Result<(), SinkFault> {
        Ok(())
    }
}
