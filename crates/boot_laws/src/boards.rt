//! Laws of boots of plans and images, each on a function without a body of its own.
ghost use Rattle.boot_laws.specs.Boards.{BoardsAreSound, BootsAreLicensed, BootsHaveFacts};

use mod_catalog::catalogues_are_well_formed;
use store_laws::{services_keep_facts, states_fit, steps_keep_facts};

/// On the board of a plan and its images, temporary RAM, RAM and the volumes share no address, and each ends where a plan allows.
pub fn boards_are_sound()
    ensures { BoardsAreSound }
{}

/// Every machine of PEI of a plan and its images has the facts of a machine.
pub fn boots_have_facts()
    ensures { BootsHaveFacts }
{
    catalogues_are_well_formed();
    services_keep_facts();
    steps_keep_facts();
    states_fit();
}

/// In PEI of a plan and its images, each start has its licence, and the move changes no PPI, notification or HOB but the hand-off HOB. PEI stops only when no
/// part of a reported volume may start.
pub fn boots_are_licensed()
    ensures { BootsAreLicensed }
{
    catalogues_are_well_formed();
    services_keep_facts();
    steps_keep_facts();
    states_fit();
}
