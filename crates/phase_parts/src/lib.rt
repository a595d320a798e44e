//! What the machines of PEI and DXE share: running scripts with registers and fuel, the parts of a volume in order, the truth of an expression, and the known
//! volumes (PI 1.8, volume 1, `EFI_PEI_FIRMWARE_VOLUME_INFO_PPI`; volume 2, "DXE Dispatcher"). Each call does what the definitions of both phases say. Begin
//! with `stack` and `volume_list`.
//!
//! Tested in `choice_trials`: `volumes`; in `boot_trials`: `tests`.
#![tactic(auto)]

mod actions;
mod expression;
mod family;
mod found;
mod frame;
mod fuel;
mod laws;
mod mapped;
mod names;
mod next;
mod parts;
mod reading;
mod registers;
mod report;
mod stack;
mod start;
mod volume_list;
mod wanted;

pub use actions::{Taken, take_action};
pub use expression::depex_holds;
pub use found::{action_at, part_of};
pub use frame::{frame_at, notified};
pub use fuel::Fuel;
pub use laws::effects_are_alike;
pub use mapped::volume_at;
pub use names::{name_of, volume_of};
pub use next::{Acted, act};
pub use parts::Parts;
pub use reading::{Answer, peek};
pub use registers::{Write, Writes, descriptor_in, handle_in, number_in, offset_in, pool_in};
pub use stack::Frames;
pub use start::{begin_notification, begin_script};
pub use volume_list::VolumeList;
