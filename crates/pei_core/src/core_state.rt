//! What the core keeps in addition to the store.
use boot_model::PeimState;
use phase_parts::{Frames, Fuel, VolumeList};
use pi_base::Seq;
use store_model::Sweep;

/// What the core keeps in addition to the store.
#[derive(Drop)]
pub struct Core {
    /// The scripts that run.
    pub(crate) frames: Frames<Sweep>,
    /// What the core's own call has still to visit.
    pub(crate) sweep: Option<Sweep>,
    /// The volumes that were reported.
    pub(crate) reported: VolumeList,
    /// The state of each module.
    pub(crate) states: Seq<PeimState>,
    /// The actions that were taken, and how many may be.
    pub(crate) fuel: Fuel,
    /// The number of starts, and the module that started last.
    pub(crate) starts: u32,
    pub(crate) last_start: Option<u32>,
}
