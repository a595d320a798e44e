//! Laws of what a machine of PEI that runs keeps, each on a function without a body.
ghost use Rattle.boot_laws.specs.Stay.{ActionsAreSound, RepliesAreSound};
ghost use Rattle.boot_laws.specs.SoundRuns.{OpeningIsSound, StepsKeepSound, StartsKeepSound, MatchesAreSound, PopsAreSound, CoreSweepsAreSound, SweepsStay};

/// The machine at the opening is sound.
pub fn opening_is_sound()
    ensures { OpeningIsSound }
{}

/// A step of a sound machine leads to a sound one.
pub fn steps_keep_sound()
    ensures { StepsKeepSound }
{}

/// The start of a part leads from a sound machine to a sound one.
pub fn starts_keep_sound()
    ensures { StartsKeepSound }
{}

/// After an action of a script the registers hold pools and descriptors that exist.
pub fn actions_are_sound()
    ensures { ActionsAreSound }
{}

/// A service's answer to a script keeps what existed, and its sweep is within the lists.
pub fn replies_are_sound()
    ensures { RepliesAreSound }
{}

/// A sweep fires only notifications of modules for PPIs that exist, and the sweep after it is within the lists.
pub fn matches_are_sound()
    ensures { MatchesAreSound }
{}

/// What leaves the queue is such a notification too, over the state after it.
pub fn pops_are_sound()
    ensures { PopsAreSound }
{}

/// The sweep of the core's own call is within the lists.
pub fn core_sweeps_are_sound()
    ensures { CoreSweepsAreSound }
{}

/// A sweep within the lists is also within those of a later state.
pub fn sweeps_stay()
    ensures { SweepsStay }
{}
