//! Laws of the PEI order, each on a function without a body.
ghost use Rattle.boot_laws.specs.PeiOrder.{OrderHasEachPartOnce, OrderIsOfModules, OrdersOfRuns, ReportedDiffer};

/// The PEI order of distinct volumes has no module twice, and so has no more than there are.
pub fn order_is_of_modules()
    ensures { OrderIsOfModules }
{}

/// Over a well-formed catalogue it has each PEI part of each of the volumes once, and nothing else.
pub fn order_has_each_part_once()
    ensures { OrderHasEachPartOnce }
{}

/// The volumes that a machine of a run of PEI has reported are distinct.
pub fn reported_volumes_differ()
    ensures { ReportedDiffer }
{}

/// So the order of each machine of a run has each PEI part of each reported volume once.
pub fn orders_of_runs_are_whole()
    ensures { OrdersOfRuns }
{}
