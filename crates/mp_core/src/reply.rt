// What the calls answer, and what is left.

use pi_base::Seq;

/// The statuses that the MP services return (`EFI_SUCCESS`, `EFI_DEVICE_ERROR` and so on).
#[derive(Clone, Copy)]
pub enum MpWord {
    /// The call did what was asked.
    Success,
    /// The caller is not the BSP.
    DeviceError,
    /// There is no enabled AP.
    NotStarted,
    /// An AP that is needed is busy.
    NotReady,
    /// There is no such processor.
    NotFound,
    /// The processor is the BSP, or is disabled.
    InvalidParameter,
    /// A busy AP can't be enabled or disabled.
    Unsupported,
}

/// The reply to a call.
#[derive(Clone, Copy)]
pub enum MpReply {
    /// A status.
    Word(MpWord),
    /// The number of a processor.
    Number(u32),
}

/// What is left after a list of events.
#[derive(Drop)]
pub struct MpOutcome {
    /// The reply of each call, in order.
    pub replies: Seq<MpReply>,
    /// The cells, by index.
    pub cells: Seq<u64>,
    /// The record of each processor, by number.
    pub records: Seq<Seq<u64>>,
    /// Whether each processor is busy, by number.
    pub busy: Seq<bool>,
}
