// The states of all modules.
ghost use Rattle.std.specs.Prelude.{◌≡◌, ◌<◌, length, IfOk, replicate};
ghost use Rattle.boot_model.specs.{PeimState.state_at, declared.peim_state.PeimState.TheVariants.NotDispatched};
ghost use Rattle.pei_core.specs.Cores as C;

use crate::core_state::Core;
use boot_model::{PeimState, state_of};
use pi_base::{OutOfMemory, Seq, Word};
use std::alloc::Global;

/// The states of so many modules, none of which has started.
pub(crate) fn none_started(alloc: Global, count: usize) -> Result<Seq<PeimState>, OutOfMemory>
    ensures { IfOk result (λ states. states ≡ replicate count NotDispatched) }
{
    let mut states = Seq::new(alloc);
    'modules: for _number in 0..count {
        states.push(PeimState::NotDispatched)?;
    }
    Ok(states)
}

// The state of a module after its start.
fn state_behind(state: PeimState) -> PeimState
    ensures { result ≡ C.state_behind state }
{
    match state {
        PeimState::NotDispatched => PeimState::Dispatched,
        _ => PeimState::Done,
    }
}

impl Core {
    /// Registers a started module for shadow, once: it then awaits its second start. Returns the status for its script.
    pub(crate) fn register(&mut self, number: u32) -> Word
        requires { number < length self.old.states }
        ensures status { result ≡ C.register_status (state_at self.old.states number) }
        ensures core { self.new ≡ C.with_registered (state_at self.old.states number) number self.old }
    {
        match state_of(self.states.as_slice(), number) {
            PeimState::Dispatched => {
                self.states
                    .set(number as usize, PeimState::RegisteredForShadow);
                Word::Success
            }
            _ => Word::AlreadyStarted,
        }
    }

    /// A module starts, for the first or for the second time: it then has another state, and awaits no second start.
    pub(crate) fn dispatch(&mut self, number: u32)
        requires { number < length self.old.states }
        ensures { self.new ≡ C.with_dispatched (state_at self.old.states number) number self.old }
    {
        let state = state_of(self.states.as_slice(), number);
        self.states.set(number as usize, state_behind(state));
    }
}
