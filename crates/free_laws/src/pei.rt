//! Laws of free runs of PEI, each on a function without a body.
ghost use Rattle.free_laws.specs.FreePei.{FreeMovesChangeNothing, FreePeiStopsIdle, FreePeimsStartLicensed, FreePeimsStartOnce};

use boot_laws::{moves_change_nothing, opening_has_facts, starts_keep_sound, step_has_facts};

/// In a free run of PEI no PEIM starts twice, except one that registered for shadow: that one starts once more, after the move.
pub fn free_peims_start_once()
    ensures { FreePeimsStartOnce }
{}

/// In a free run of PEI each PEIM that starts is one of a reported volume and has its licence, which its start line prints.
pub fn free_peims_start_licensed()
    ensures { FreePeimsStartLicensed }
{}

/// In a free run PEI stops only when no PEIM of a reported volume may start.
pub fn free_pei_stops_idle()
    ensures { FreePeiStopsIdle }
{}

/// In a free run the move to permanent memory leaves PPIs, notifications and HOBs as they were, but for what `IsUnchanged` of `boot_model` names.
pub fn free_moves_change_nothing()
    ensures { FreeMovesChangeNothing }
{
    opening_has_facts();
    step_has_facts();
    starts_keep_sound();
    moves_change_nothing();
}
