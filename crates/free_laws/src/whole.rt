//! The laws of whole free boots, on a function without a body of its own.
ghost use Rattle.free_laws.specs.FreeBoots.{FreeBootsAreLawful};

use crate::dxe::{
    free_companions_start_beside, free_drivers_start_licensed, free_drivers_start_once,
    free_dxe_stops_idle,
};
use crate::pei::{
    free_moves_change_nothing, free_pei_stops_idle, free_peims_start_licensed,
    free_peims_start_once,
};

/// Over a well-formed catalogue and a board with its facts, all lines of a free boot are those of free runs of which all laws of both phases hold.
pub fn free_boots_are_lawful()
    ensures { FreeBootsAreLawful }
{
    free_peims_start_once();
    free_peims_start_licensed();
    free_moves_change_nothing();
    free_pei_stops_idle();
    free_drivers_start_once();
    free_drivers_start_licensed();
    free_companions_start_beside();
    free_dxe_stops_idle();
}
