//! What a step of the machine did.
use crate::event::Event;
use boot_model::DxeEnd;

/// What a step did.
#[derive(Clone, Copy)]
pub enum Stepped {
    /// An event of the machine.
    Went(Event),
    /// Nothing: no script runs. A start is left, or the end.
    Idle,
    /// Nothing: DXE ends by `Spent` or by `Deep`. The machine is as it was, and nothing was written.
    Ended(DxeEnd),
}
