//! Laws of which GUIDs are installed, each on a function without a body.
ghost use Rattle.boot_laws.specs.ChangedGuids.{GuidsAreThere, GuidsAreThese, GuidsChange};

/// A step of PEI changes which GUIDs are installed only for the GUIDs of its event.
pub fn guids_change()
    ensures { GuidsChange }
{}

/// The GUIDs that a successful call adds are installed after the step.
pub fn guids_are_there()
    ensures { GuidsAreThere }
{}

/// The GUIDs of an event are the one that a reinstall removes and those that are added.
pub fn guids_are_these()
    ensures { GuidsAreThese }
{}
