//! What a turn of the run comes to.
use boot_laws::Reached;
use boot_model::{DxeEnd, Scheduled};
use dxe_core::Event;

/// What a step of the machine was, behind which the run goes on.
#[derive(Clone, Copy)]
pub enum Step {
    /// The core's own, where a script runs, and what it did.
    Acted(Event),
    /// The start of a driver.
    Started(Scheduled),
}

/// What a turn of the run comes to.
#[derive(Clone, Copy)]
pub enum Turn {
    /// A step, behind which the run goes on.
    Took(Step),
    /// The end of DXE, or the start of a driver that the choice does not let: the run goes no further.
    Reached(Reached<DxeEnd>),
}
