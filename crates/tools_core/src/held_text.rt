// A sink that holds what is written.

use boot_io::{Sink, SinkFault};
use pi_base::{OutOfMemory, Seq};
use std::alloc::Global;

/// A sink that holds all that is written. It fails only if memory runs out.
#[derive(Drop)]
pub(crate) struct HeldText {
    /// All bytes written so far.
    pub(crate) text: Seq<u8>,
    faults: u64,
}

impl HeldText {
    ghost use Rattle.std.specs.Prelude.{◌≡◌, []};

    /// Nothing was written yet.
    pub(crate) fn new(alloc: Global) -> HeldText
        ensures text { result.text ≡ [] }
        ensures faults { result.faults ≡ 0 }
    {
        HeldText {
            text: Seq::new(alloc),
            faults: 0,
        }
    }
}

impl Sink for HeldText {
    ghost use Rattle.std.specs.Prelude.{Some};

    ghost text = { λ held. Some held.text };

    ghost faults = { λ held. held.faults };

    fn put(&mut self, piece: &[u8]) -> Result<(), SinkFault> {
        match self.text.append(piece) {
            Ok(()) => Ok(()),
            Err(OutOfMemory) => {
                self.faults = self.faults.saturating_add(1);
                Err(SinkFault)
            }
        }
    }
}
