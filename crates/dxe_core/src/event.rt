//! What an event of the machine did.
ghost use Rattle.std.specs.Prelude.{◌≡◌};
ghost use Rattle.dxe_core.specs.Event as E;

use pi_base::Guid;

/// What an event of the machine did, apart from its lines.
#[derive(Clone, Copy, PartialEq, Eq)]
pub struct Event {
    /// The protocol that it installed or uninstalled.
    pub changed: Option<Guid>,
    /// The driver that it requested.
    pub requested: Option<u32>,
    /// How many volumes it discovered: the last so many of the discovered ones.
    pub discovered: usize,
}

impl Event {
    /// An event that did none of these.
    pub fn quiet() -> Event
        ensures { result ≡ E.quiet }
    {
        Event {
            changed: None,
            requested: None,
            discovered: 0,
        }
    }

    // It installed or uninstalled this protocol.
    pub(crate) fn changes(guid: &Guid) -> Event
        ensures { result ≡ E.changes guid.now }
    {
        Event {
            changed: Some(*guid),
            requested: None,
            discovered: 0,
        }
    }

    // It requested this driver.
    pub(crate) fn requests(number: u32) -> Event
        ensures { result ≡ E.requests number }
    {
        Event {
            changed: None,
            requested: Some(number),
            discovered: 0,
        }
    }

    // It discovered so many volumes.
    pub(crate) fn discovers(count: usize) -> Event
        ensures { result ≡ E.discovers count }
    {
        Event {
            changed: None,
            requested: None,
            discovered: count,
        }
    }
}
