//! How far a module has come in PEI.
ghost use Rattle.std.specs.Prelude.{◌≡◌};
ghost use Rattle.boot_model.specs.PeimState.{state_at};

/// How far a module has come in PEI: the four states of a PEIM in EDK2's dispatcher.
#[derive(Clone, Copy, PartialEq, Eq)]
pub enum PeimState {
    /// It has not started (`PEIM_STATE_NOT_DISPATCHED`).
    NotDispatched,
    /// It has started (`PEIM_STATE_DISPATCHED`).
    Dispatched,
    /// It has started, and has registered for shadow (`PEIM_STATE_REGISTER_FOR_SHADOW`).
    RegisteredForShadow,
    /// It has started a second time (`PEIM_STATE_DONE`).
    Done,
}

/// The state of a module in the list of all states. A module past the end of the list has not started.
pub fn state_of(states: &[PeimState], number: u32) -> PeimState
    ensures { result ≡ state_at states.now number }
{
    match states.get(number as usize) {
        Some(state) => *state,
        None => PeimState::NotDispatched,
    }
}
