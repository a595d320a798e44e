// The choice that the starts of a trace have.
ghost use Rattle.std.specs.Prelude.{◌≡◌, length};
ghost use Rattle.std.proofs.Props.{props};
ghost use Rattle.recorded_boot.specs.Named.{AreNames};

use boot_laws::{Before, Choice};
use recorded_boot::follow::ByOrder;

/// The choice by an order of starts: it names the module of the next start, and allows each. If the named module may not start, the first eligible one starts.
#[derive(Drop)]
pub(crate) struct ByStarts<'o> {
    by: ByOrder<'o>,
    ghost names: { AreNames by.catalog.now (length by.catalog.now.modules) by.names.now.volumes.items } by { Prim.hlevel props },
}

impl<'o> ByStarts<'o> {
    /// By the starts of an order.
    pub(crate) fn new(by: ByOrder<'o>) -> ByStarts<'o>
        requires { AreNames by.catalog.now (length by.catalog.now.modules) by.names.now.volumes.items }
        ensures { result.by ≡ by.entry }
    {
        ByStarts { by }
    }
}

impl<S> Choice<S> for ByStarts<'_> {
    ghost use Rattle.tools_core.specs.ToldReport.{start_rules};

    ghost rules = { λ it. start_rules it.by.catalog.now it.by.order.now };

    fn wants_turn(&self) -> bool {
        false
    }

    fn peim(&self, sink: &S, before: Before) -> Option<u32> {
        self.by.peim(sink, before)
    }

    fn driver(&self, sink: &S, before: Before) -> Option<u32> {
        self.by.driver(sink, before)
    }

    fn lets_peim(&self, _before: Before, _number: u32) -> bool {
        true
    }

    fn lets_driver(&self, _before: Before, _number: u32) -> bool {
        true
    }
}
