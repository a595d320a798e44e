// What happens to the processors.

use crate::op::Op;
use pi_base::Seq;

/// A call of the MP services by the processor `by`, or a turn of a processor. Processors are given by their numbers.
#[derive(Drop)]
pub enum MpEvent {
    /// `StartupAllAPs`: each enabled AP is to do the job.
    All {
        /// Who calls.
        by: u32,
        /// What is to be done.
        job: Seq<Op>,
    },
    /// `StartupThisAP`: one AP is to do the job.
    This {
        /// Who calls.
        by: u32,
        /// Who is to do it.
        on: u32,
        /// What is to be done.
        job: Seq<Op>,
    },
    /// `EnableDisableAP`.
    Enable {
        /// Who calls.
        by: u32,
        /// Whom it is about.
        on: u32,
        /// Whether the AP is enabled from then on.
        enabled: bool,
    },
    /// `SwitchBSP`: an AP becomes the BSP.
    Switch {
        /// Who calls.
        by: u32,
        /// Who becomes the BSP.
        on: u32,
        /// Whether the old BSP is an enabled AP from then on.
        enabled: bool,
    },
    /// `WhoAmI`.
    Who {
        /// Who calls.
        by: u32,
    },
    /// A processor does one operation of its job, if it is busy (own).
    Turn {
        /// Whose turn it is.
        on: u32,
    },
}
