//! What the handle database of DXE keeps.
use pi_base::Guid;

/// An interface on a handle (PI 1.8, volume 2, "Protocol Handler Services").
#[derive(Clone, Copy)]
pub struct Interface {
    /// The handle's number, from 1.
    pub handle: u32,
    pub guid: Guid,
    pub value: u64,
}
