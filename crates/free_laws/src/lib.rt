//! Laws of every boot in which the dispatchers choose freely: whichever of the eligible modules starts next, no module starts twice, each start has its licence,
//! and a phase stops only when no module may start. `boot_laws` says the same of the boot machine's own choices. Begin with `whole`; each law is a function
//! without a body.
#![tactic(auto)]

mod dxe;
mod pei;
mod whole;

pub use dxe::{
    free_companions_start_beside, free_drivers_start_licensed, free_drivers_start_once,
    free_dxe_stops_idle,
};
pub use pei::{
    free_moves_change_nothing, free_pei_stops_idle, free_peims_start_licensed,
    free_peims_start_once,
};
pub use whole::free_boots_are_lawful;
