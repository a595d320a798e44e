//! Laws of free boots in DXE, each on a function without a body.
ghost use Rattle.boot_laws.specs.DxeUnderWay.{DxeOpensUnderWay, DxeStepsRunOut, DxeHasEnded, FewDriversWait};
ghost use Rattle.boot_laws.specs.DxeFree.{DxeGoesOn, DxeEndsSo, DxeLinesGrow, DxeEndsFreely, OwnDxeStepsAreFree};
ghost use Rattle.boot_laws.specs.DxeAim.{GroupsAreAimed, AimIsFree, DxeStartsFreely, FirstEligibleMayStart, NamesLeadToRoot, DxeStartsPrint};

/// The opening of DXE is under way. Each free step keeps a machine under way and nearer to its end, and a machine with no step left has ended.
pub fn dxe_opens()
    ensures opens { DxeOpensUnderWay }
    ensures nearer { DxeStepsRunOut }
    ensures ended { DxeHasEnded }
{}

/// If a machine of DXE has no choice, the free boots from it are those from its next machine. After its end they are the lines of both phases.
pub fn dxe_goes_on()
    ensures on { DxeGoesOn }
    ensures ended { DxeEndsSo }
    ensures own { OwnDxeStepsAreFree }
{}

/// If a machine of DXE has a choice, the free boots from it are those after the group of some waiting eligible driver is scheduled, and each such driver gives
/// one. A start prints its start line first.
pub fn dxe_starts_freely()
    ensures starts { DxeStartsFreely }
    ensures prints { DxeStartsPrint }
    ensures aims { AimIsFree }
{}

/// The driver that the machine itself finds may start. If it finds none, it stops, and no driver may start.
pub fn dxe_chooses_by_groups()
    ensures { FirstEligibleMayStart }
{}

/// If the group of a driver is scheduled, its first driver starts, and the machine stays under way.
pub fn groups_are_aimed()
    ensures { GroupsAreAimed }
{}

/// From the first of a group the names after BEFORE and AFTER lead to its driver.
pub fn names_lead_to_root()
    ensures { NamesLeadToRoot }
{}

/// There are no more waiting drivers than modules.
pub fn few_drivers_wait()
    ensures { FewDriversWait }
{}

/// All lines of a free boot begin with those that both phases have printed, and their text ends with a line feed.
pub fn dxe_lines_grow()
    ensures { DxeLinesGrow }
{}

/// From each machine of DXE that is under way there is a free boot.
pub fn dxe_ends()
    ensures { DxeEndsFreely }
{}
