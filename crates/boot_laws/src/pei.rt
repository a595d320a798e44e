//! Laws of the machine of PEI, each on a function without a body.
ghost use Rattle.boot_laws.specs.{Moves.MovesChangeNothing, PrintedStarts.StartsArePrinted, RefusedCalls.RefusedPeiCallsChangeNothing};
ghost use Rattle.boot_laws.specs.RunFacts.{OpeningHasFacts, StepHasFacts, RunHasFacts};
ghost use Rattle.boot_laws.specs.RunsEnd.{PeiRunsEnd};
ghost use Rattle.boot_model.specs.Licence.{IsLicensedRun, StartsAtMostOnce};

use store_laws::{services_keep_facts, states_fit, steps_keep_facts};

/// A run of PEI ends within a number of steps that its catalogue and its fuel bound.
pub fn pei_runs_end()
    ensures { PeiRunsEnd }
{}

/// The move changes no PPI, notification or other HOB.
pub fn moves_change_nothing()
    ensures { MovesChangeNothing }
{}

/// Over a well-formed catalogue and a board with its facts, every machine of a run of PEI has its facts: what its store says fits, and what its registers hold
/// exists.
pub fn run_has_facts()
    ensures { RunHasFacts }
{
    services_keep_facts();
    steps_keep_facts();
    states_fit();
}

/// The opening of PEI has these facts.
pub fn opening_has_facts()
    ensures { OpeningHasFacts }
{
    services_keep_facts();
    steps_keep_facts();
    states_fit();
}

/// Each step of PEI keeps these facts.
pub fn step_has_facts()
    ensures { StepHasFacts }
{
    services_keep_facts();
    steps_keep_facts();
    states_fit();
}

/// In a run of PEI each start has its licence, and the move changes no PPI, notification or HOB but the hand-off HOB. PEI stops only when no part of a reported
/// volume may start.
pub fn licensed_run()
    ensures { IsLicensedRun }
{
    services_keep_facts();
    steps_keep_facts();
    states_fit();
}

/// In a run of PEI no part starts twice, except one that registered for shadow, and that one after the move.
pub fn starts_at_most_once()
    ensures { StartsAtMostOnce }
{}

/// A refused call of a PEI script changes no HOB, PPI, notification, queued pair or register: its line is printed, and the script gets its status.
pub fn refused_pei_calls_change_nothing()
    ensures { RefusedPeiCallsChangeNothing }
{}

/// The start lines of a run of PEI are the starts of its machine, first and second ones, in order.
pub fn starts_are_printed()
    ensures { StartsArePrinted }
{}
