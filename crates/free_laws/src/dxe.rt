//! Laws of free runs of DXE, each on a function without a body.
ghost use Rattle.free_laws.specs.FreeDxe.{FreeCompanionsStartBeside, FreeDriversStartLicensed, FreeDriversStartOnce, FreeDxeStopsIdle};

use boot_laws::dxe_opens;

/// In a free run of DXE no driver starts twice.
pub fn free_drivers_start_once()
    ensures { FreeDriversStartOnce }
{
    dxe_opens();
}

/// In a free run of DXE each driver that starts had its licence when it was scheduled: by its volume's a priori list, or with the group of a driver that might
/// start then. Its start line prints the licence.
pub fn free_drivers_start_licensed()
    ensures { FreeDriversStartLicensed }
{}

/// In a free run DXE stops only when nothing is scheduled and no driver of a discovered volume may start.
pub fn free_dxe_stops_idle()
    ensures { FreeDxeStopsIdle }
{}

/// In a free run of DXE a companion starts next to the driver that its BEFORE or AFTER names: between the two only companions of either start.
pub fn free_companions_start_beside()
    ensures { FreeCompanionsStartBeside }
{
    dxe_opens();
}
