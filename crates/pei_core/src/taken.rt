//! What an action of PEI's own did.
ghost use Rattle.std.specs.Prelude.{◌≡◌};
ghost use Rattle.pei_core.specs.Taken as T;

use crate::descriptors::MOST_DESCRIPTORS;
use crate::guids::Changes;
use arrayvec::ArrayVec;
use boot_model::{CallName, Extra};
use phase_parts::Writes;
use pi_base::{OutOfMemory, Word};
use store_model::{Desc, StoreFault, Sweep};

/// The answer of a service to a script.
#[derive(Drop)]
pub struct Reply {
    pub name: CallName,
    pub status: Word,
    /// What its line shows.
    pub extra: Extra,
    /// The registers that it writes.
    pub writes: Writes,
    /// The callbacks to visit.
    pub sweep: Option<Sweep>,
    /// The descriptors of the PPIs that it installed, to be looked at for volumes.
    pub installs: ArrayVec<Desc, MOST_DESCRIPTORS>,
    /// The GUIDs that it installed or removed: none if it was refused.
    pub changes: Changes,
}

/// What an action of PEI's own did to the store, and what is still to be done in its frame.
#[derive(Drop)]
pub enum Taken {
    /// It writes a register, or is refused, and prints nothing.
    Wrote { status: Word, writes: Writes },
    /// A service answered.
    Called(Reply),
    /// The module registers for shadow.
    Shadowed,
}

impl Taken {
    // The answer of a service that has no callbacks to visit.
    pub(crate) fn answered(name: CallName, status: Word, extra: Extra, writes: Writes) -> Taken
        ensures { result ≡ T.answered name status extra writes }
    {
        Taken::Called(Reply {
            name,
            status,
            extra,
            writes,
            sweep: None,
            installs: ArrayVec::new(),
            changes: Changes::none(),
        })
    }

    // A success.
    pub(crate) fn told(name: CallName, extra: Extra, writes: Writes) -> Taken
        ensures { result ≡ T.told name extra writes }
    {
        Taken::answered(name, Word::Success, extra, writes)
    }

    // A refusal, which changes nothing.
    pub(crate) fn refusal(name: CallName, status: Word) -> Taken
        ensures { result ≡ T.refusal name status }
    {
        Taken::answered(name, status, Extra::Nothing, Writes::Nothing)
    }

    // The answer of a service that has callbacks to visit, PPIs that it installed, and GUIDs that it changed.
    pub(crate) fn swept(
        name: CallName,
        sweep: Sweep,
        installs: ArrayVec<Desc, MOST_DESCRIPTORS>,
        changes: Changes,
    ) -> Taken
        ensures { result ≡ T.swept name sweep installs.items changes }
    {
        Taken::Called(Reply {
            name,
            status: Word::Success,
            extra: Extra::Nothing,
            writes: Writes::Nothing,
            sweep: Some(sweep),
            installs,
            changes,
        })
    }

    // The answer to a script if the store refuses. Running out of memory is not an answer.
    pub(crate) fn refused(name: CallName, fault: StoreFault) -> Result<Taken, OutOfMemory>
        ensures { result ≡ T.refused name fault }
    {
        match fault.status() {
            Some(status) => Ok(Taken::refusal(name, status)),
            None => Err(OutOfMemory),
        }
    }
}
