//! What the boot machine keeps in DXE: scripts that run, notifications of protocols, and scheduled drivers.
use crate::frame::Frame;
use crate::licence::Licence;
use pi_base::Guid;

/// The notifications of a protocol that a call still has to visit, with the interface and the handle of the call.
#[derive(Clone, Copy)]
pub struct ProtocolSweep {
    pub guid: Guid,
    pub interface: u64,
    pub handle: u32,
    /// The next notification's place.
    pub note_at: u32,
    /// The place after the last one registered before the call.
    pub note_to: u32,
}

/// A script of DXE that runs.
pub type DriverFrame = Frame<ProtocolSweep>;

/// A notification of a protocol: what it waits for, and the block of a module that it runs (PI 1.8, volume 2, `RegisterProtocolNotify()`).
#[derive(Clone, Copy)]
pub struct ProtocolNote {
    pub guid: Guid,
    /// The number of the module.
    pub module_number: u32,
    pub block: u8,
}

/// A driver in the scheduled queue, and why it starts.
#[derive(Clone, Copy)]
pub struct Scheduled {
    /// The number of the module.
    pub module_number: u32,
    pub licence: Licence,
}
