//! Laws of what is accepted and of what is printed, each on a function without a body of its own.
ghost use Rattle.recorded_boot.specs.Lawful.{FollowedIsLawful, YesIsLawful};

use boot_laws::boards_are_sound;
use free_laws::free_boots_are_lawful;
use mod_catalog::catalogues_are_well_formed;

/// If `check` answers `Verdict::Yes`, the text is that of a boot that obeys the laws of both phases.
pub fn yes_is_lawful()
    ensures { YesIsLawful }
{
    boards_are_sound();
    free_boots_are_lawful();
    catalogues_are_well_formed();
}

/// What `follow` prints is the text of a boot that obeys the laws of both phases: all of it if the boot ended, else its beginning.
pub fn followed_is_lawful()
    ensures { FollowedIsLawful }
{
    boards_are_sound();
    free_boots_are_lawful();
    catalogues_are_well_formed();
}
