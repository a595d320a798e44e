//! Laws of the machine of DXE, each on a function without a body.
ghost use Rattle.boot_laws.specs.{DiscoveredOrder.DiscoveredOrderHasEachOnce, DriverLicences.DriversStartLicensed};
ghost use Rattle.boot_laws.specs.{DriverStarts.DriversStartOnce, GroupUnfolds.GroupsAreSmall, GroupUnfolds.GroupsUnfold};
ghost use Rattle.boot_laws.specs.DriverSteps.{DriverStepsGrow, DriversAreFew, RefusedCallsChangeNothing};
ghost use Rattle.boot_laws.specs.{PrintedStarts.DriverStartsArePrinted, RunsEnd.DxeRunsEnd, UnrequestedDrivers.UnrequestedDriversWait};
ghost use Rattle.boot_laws.specs.QueueOrder.{CompanionsStartBeside, QueuesKeepTheirOrder, QueuesStartInOrder};

/// A run of DXE ends within a number of steps that its catalogue and its fuel bound.
pub fn dxe_runs_end()
    ensures { DxeRunsEnd }
{}

/// In a run of DXE no driver starts twice.
pub fn drivers_start_once()
    ensures { DriversStartOnce }
{}

/// In a run of DXE each start has its licence, and DXE stops only when no driver may start.
pub fn drivers_start_licensed()
    ensures { DriversStartLicensed }
{}

/// In a run of DXE the discovered order has each driver of a discovered volume once, and nothing else.
pub fn discovered_order_has_each_once()
    ensures { DiscoveredOrderHasEachOnce }
{}

/// The group of a driver can be computed over an eligible one without a bound on the depth.
pub fn groups_unfold()
    ensures { GroupsUnfold }
{}

/// The group of an eligible driver has each driver once, and no more than wait.
pub fn groups_are_small()
    ensures { GroupsAreSmall }
{}

/// A step of DXE keeps the store. It adds volumes and requests after the earlier ones, so the driver of a name stays the same.
pub fn driver_steps_grow()
    ensures { DriverStepsGrow }
{}

/// A refused call of DXE changes nothing but the last status.
pub fn refused_calls_change_nothing()
    ensures { RefusedCallsChangeNothing }
{}

/// In a run of DXE there are no more drivers in the discovered order than modules, and no more scheduled or started.
pub fn drivers_are_few()
    ensures { DriversAreFew }
{}

/// In a run of DXE a driver with SOR that no module requested waits, unless it has a place in its volume's a priori list.
pub fn unrequested_drivers_wait()
    ensures { UnrequestedDriversWait }
{}

/// In a run of DXE a step adds new drivers after those that are scheduled, or the head of the queue leaves it and starts.
pub fn queues_keep_their_order()
    ensures { QueuesKeepTheirOrder }
{}

/// So what is in the queue starts in that order, and nothing starts in between.
pub fn queues_start_in_order()
    ensures { QueuesStartInOrder }
{}

/// A companion starts next to the driver that its BEFORE or AFTER names: between the two only companions of either start.
pub fn companions_start_beside()
    ensures { CompanionsStartBeside }
{}

/// The start lines of a run of DXE are the starts of its machine, in order.
pub fn driver_starts_are_printed()
    ensures { DriverStartsArePrinted }
{}
