//! The choice that an order has: the module that starts next is that of the order's next line.
ghost use Rattle.std.specs.Prelude.{◌≡◌, slice_get};
ghost use Rattle.recorded_boot.specs.ByOrder.{NamesBy, is_start_of, lets_by};

use crate::order::{AskedStart, Names, Start, StartOrder};
use boot_laws::{Before, Choice};
use mod_catalog::Catalog;
use pi_base::Phase;

/// The choice by an order: it names the module of the order's next start, and allows no other. After the order's last line it names no module and allows each,
/// so the first eligible one starts, unless the order ends in `stop`.
#[derive(Clone, Copy)]
pub struct ByOrder<'o> {
    /// The order.
    pub order: &'o StartOrder,
    /// The modules.
    pub catalog: &'o Catalog,
    /// Their names.
    pub names: &'o Names,
}

/// What an order asks for after so many starts.
pub(crate) fn asked_behind(order: &StartOrder, starts: u64) -> Option<AskedStart>
    ensures { result ≡ slice_get order.now.starts starts }
{
    order.starts.as_slice().get(starts as usize).copied()
}

// Whether a start is that of the module with this number in a phase.
fn is_start_of(catalog: &Catalog, phase: Phase, number: u32, start: &Start) -> bool
    ensures { result ≡ is_start_of catalog.now phase number start.now }
{
    match catalog.modules.as_slice().get(number as usize) {
        Some(module) => {
            start.phase == phase && module.volume == start.volume && module.name == start.name
        }
        None => false,
    }
}

impl ByOrder<'_> {
    // The module that the order has start in a phase after so many starts.
    fn named(&self, phase: Phase, starts: u64) -> Option<u32>
        ensures { NamesBy self.now.catalog.now self.now.names.now.volumes.items phase self.now.order.now starts result }
    {
        match asked_behind(self.order, starts) {
            Some(asked) if asked.start.phase == phase => {
                self.names.number_of(asked.start.volume, &asked.start.name)
            }
            _ => None,
        }
    }

    // Whether the order allows a module to start in a phase after so many starts.
    fn lets(&self, phase: Phase, starts: u64, number: u32) -> bool
        ensures { result ≡ lets_by self.now.catalog.now self.now.order.now phase starts number }
    {
        match asked_behind(self.order, starts) {
            Some(asked) => is_start_of(self.catalog, phase, number, &asked.start),
            None => self.order.stop.is_none(),
        }
    }
}

impl<S> Choice<S> for ByOrder<'_> {
    ghost use Rattle.recorded_boot.specs.ByOrder.{order_rules};

    ghost rules = { λ by. order_rules by.catalog.now by.names.now.volumes.items by.order.now };

    fn wants_turn(&self) -> bool {
        false
    }

    fn peim(&self, _sink: &S, before: Before) -> Option<u32> {
        self.named(Phase::Pei, before.starts)
    }

    fn driver(&self, _sink: &S, before: Before) -> Option<u32> {
        self.named(Phase::Dxe, before.starts)
    }

    fn lets_peim(&self, before: Before, number: u32) -> bool {
        self.lets(Phase::Pei, before.starts, number)
    }

    fn lets_driver(&self, before: Before, number: u32) -> bool {
        self.lets(Phase::Dxe, before.starts, number)
    }
}
