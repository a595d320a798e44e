//! Laws of free boots in PEI, each on a function without a body.
ghost use Rattle.boot_laws.specs.PeiUnderWay.{PeiOpensUnderWay, PeiStepsRunOut, PeiHasEnded};
ghost use Rattle.boot_laws.specs.PeiFree.{PeiGoesOn, PeiStartsFreely, PeiEndsSo, PeiLinesGrow, PeiEndsFreely, OwnPeiStepsAreFree, BootIsFree};
ghost use Rattle.boot_laws.specs.PeiAim.{CursorAims, CursorIsFree, NextMayStart, PeiStartsPrint};

/// The opening of PEI is under way. Each free step keeps a machine under way and nearer to its end, and a machine with no step left has ended.
pub fn pei_opens()
    ensures opens { PeiOpensUnderWay }
    ensures nearer { PeiStepsRunOut }
    ensures ended { PeiHasEnded }
{}

/// If a machine of PEI has no choice, the free boots from it are those from its next machine. After its end they are what comes after PEI.
pub fn pei_goes_on()
    ensures on { PeiGoesOn }
    ensures ended { PeiEndsSo }
{}

/// If a machine of PEI has a choice, the free boots from it are those after the start of each part that may start; the part that the machine itself chooses is
/// one of them. A start prints its start line first.
pub fn pei_starts_freely()
    ensures starts { PeiStartsFreely }
    ensures prints { PeiStartsPrint }
    ensures own { OwnPeiStepsAreFree }
{}

/// All lines of a free boot begin with those that were printed, and their text ends with a line feed.
pub fn pei_lines_grow()
    ensures { PeiLinesGrow }
{}

/// From each machine of PEI that is under way there is a free boot.
pub fn pei_ends()
    ensures { PeiEndsFreely }
{}

/// The boot of the machine itself is a free one.
pub fn boot_is_free()
    ensures { BootIsFree }
{}

/// For every place of the cursor, the machine chooses a part that may start, and the free boots are the same. With the cursor before a part that may start, it
/// chooses that part.
pub fn cursor_aims()
    ensures aims { CursorAims }
    ensures may { NextMayStart }
    ensures free { CursorIsFree }
{}
