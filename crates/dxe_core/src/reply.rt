//! What a service of DXE answers to a script.
ghost use Rattle.std.specs.Prelude.{◌≡◌};
ghost use Rattle.dxe_core.specs.Answered as A;

use crate::database::HandleFault;
use crate::event::Event;
use boot_model::{CallName, Extra, ProtocolSweep};
use phase_parts::Writes;
use pi_base::{OutOfMemory, Word};

/// The answer of a service to a script.
#[derive(Drop)]
pub struct Reply {
    pub name: CallName,
    pub status: Word,
    /// What its line shows.
    pub extra: Extra,
    /// The registers that it writes.
    pub writes: Writes,
    /// The notifications to visit.
    pub sweep: Option<ProtocolSweep>,
    /// What it did.
    pub event: Event,
}

impl Reply {
    // The answer of a service that has no notifications to visit.
    pub(crate) fn answered(name: CallName, status: Word, extra: Extra, writes: Writes) -> Reply
        ensures { result ≡ A.answered name status extra writes }
    {
        Reply {
            name,
            status,
            extra,
            writes,
            sweep: None,
            event: Event::quiet(),
        }
    }

    // A success.
    pub(crate) fn told(name: CallName, extra: Extra, writes: Writes) -> Reply
        ensures { result ≡ A.told name extra writes }
    {
        Reply::answered(name, Word::Success, extra, writes)
    }

    // A refusal, which changes nothing.
    pub(crate) fn refusal(name: CallName, status: Word) -> Reply
        ensures { result ≡ A.refusal name status }
    {
        Reply::answered(name, status, Extra::Nothing, Writes::Nothing)
    }

    // A success that has notifications to visit.
    pub(crate) fn swept(name: CallName, extra: Extra, writes: Writes, sweep: ProtocolSweep) -> Reply
        ensures { result ≡ A.swept name extra writes sweep }
    {
        Reply {
            name,
            status: Word::Success,
            extra,
            writes,
            sweep: Some(sweep),
            event: Event::quiet(),
        }
    }

    // The same answer, of a call that did this.
    pub(crate) fn did(mut self, event: Event) -> Reply
        ensures { result ≡ A.did event self }
    {
        self.event = event;
        self
    }

    // The answer to a script if the handles refuse. Running out of memory is not an answer.
    pub(crate) fn refused(name: CallName, fault: HandleFault) -> Result<Reply, OutOfMemory>
        ensures { result ≡ A.refused name fault }
    {
        match fault {
            HandleFault::InvalidParameter => Ok(Reply::refusal(name, Word::InvalidParameter)),
            HandleFault::NotFound => Ok(Reply::refusal(name, Word::NotFound)),
            HandleFault::Memory => Err(OutOfMemory),
        }
    }
}
