//! The DXE core (PI 1.8, volume 2, "DXE Foundation"): the protocol services, notifications, `Schedule()` and `ProcessFirmwareVolume()`, and the discovered
//! volumes with their drivers. `Dxe::step` and `Dxe::start` do one step of the boot machine, print its lines, and say what they changed. Begin with `dxe`,
//! `services` and `order`.
//!
//! Tested in `boot_trials`: `tests`; in `choice_trials`: `calls`, `drivers`.
#![tactic(auto)]

mod act;
mod action;
pub mod database;
mod dxe;
mod event;
mod handles;
mod lines;
mod lists;
mod memory;
mod names;
mod notes;
mod notifications;
mod notify;
mod order;
mod process;
mod reply;
mod requests;
mod schedule;
mod services;
mod stepped;

pub use action::take_own;
pub use dxe::Dxe;
pub use event::Event;
pub use lines::put_volumes;
pub use order::DriverOrder;
pub use reply::Reply;
pub use requests::is_requested;
pub use services::DxeServices;
pub use stepped::Stepped;
