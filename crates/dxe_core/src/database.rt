//! The handles of DXE: which protocols are on which handles, with their interfaces (PI 1.8, volume 2, "Protocol Handler Services"). The handles of a protocol
//! are found by its GUID, and the interfaces of a handle by its number. The hasher's seed is fixed: a volume may choose GUIDs that meet, and a look-up then
//! goes over all of them, at most as many as there were installs.
//!
//! Tested in `choice_trials`: `calls`.

mod fault;
mod handles;
mod places;

pub use fault::HandleFault;
pub use handles::Handles;
