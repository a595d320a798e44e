//! What a turn of the run comes to.
use boot_laws::Reached;
use boot_model::PeiEnd;
use pei_core::Event;

/// What a step of the machine was, behind which the run goes on.
#[derive(Drop)]
pub enum Step {
    /// The core's own, and what it did.
    Acted(Event),
    /// The start of the module with this number.
    Started(u32),
}

/// What a turn of the run comes to.
#[derive(Drop)]
pub enum Turn {
    /// A step, behind which the run goes on.
    Took(Step),
    /// The end of PEI, or the start of a module that the choice does not let: the run goes no further.
    Reached(Reached<PeiEnd>),
}
