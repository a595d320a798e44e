//! What a step of the machine did.
ghost use Rattle.std.specs.Prelude.{◌≡◌};
ghost use Rattle.pei_core.specs.{SecondStarts.event_letting, SecondStarts.registered_again, declared.event.Again.TheVariants.Nobody};

use crate::guids::Changes;
use boot_model::{PeiEnd, PeimState};

/// Which parts may start again behind an event that might not before it (PI 1.8, volume 1, `RegisterForShadow()`).
#[derive(Clone, Copy)]
pub enum Again {
    /// None.
    Nobody,
    /// The module of this number: it registered for shadow, and memory had moved.
    One(u32),
    /// All that await their second start: memory has moved.
    All,
}

impl Again {
    // Whether a module in a state that registers for shadow may start again: the first time, and once memory has moved.
    pub(crate) fn by_registering(state: PeimState, is_moved: bool, number: u32) -> Again
        ensures { result ≡ registered_again state is_moved number }
    {
        match state {
            PeimState::Dispatched => {
                if is_moved {
                    Again::One(number)
                } else {
                    Again::Nobody
                }
            }
            _ => Again::Nobody,
        }
    }
}

/// What an event of the machine did, beside its lines.
#[derive(Drop)]
pub struct Event {
    /// The GUIDs of the PPIs that it changed: those that it installed are there behind it, and the one that it took away may be gone.
    pub changes: Changes,
    /// The parts that it lets start again.
    pub again: Again,
    /// How many volumes it reported.
    pub volumes: usize,
}

impl Event {
    // One that changed no PPI and reported no volume, and lets these parts start again.
    pub(crate) fn letting(again: Again) -> Event
        ensures { result ≡ event_letting again }
    {
        Event {
            changes: Changes::none(),
            again,
            volumes: 0,
        }
    }

    // One that let no part start again either.
    pub(crate) fn quiet() -> Event
        ensures { result ≡ event_letting Nobody }
    {
        Event::letting(Again::Nobody)
    }
}

/// What a step did.
#[derive(Drop)]
pub enum Stepped {
    /// An event of the machine.
    Went(Event),
    /// Nothing: no script runs, no notification is due, and no move. A start is left, or the end.
    Idle,
    /// Nothing: PEI ends by `Spent` or by `Deep`. The machine is as it was, and nothing was put.
    Ended(PeiEnd),
}
