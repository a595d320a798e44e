// What follows from the definitions alone.
ghost use Rattle.store_laws.specs.{Behind.EntriesAreTold, Bodies.BodiesAreInside, Bodies.BodiesStay, Fitting.StatesFit, Keeping.KeepFacts};
ghost use Rattle.store_laws.specs.{Named.NamedAreThere, Steps.StepsKeepFacts, Sweeps.SweepsGoOn};

/// Each service and the move keep all facts that hold of every state.
pub fn services_keep_facts()
    ensures { KeepFacts }
{}

/// Each step of a service keeps these facts too, if it has room, and leaves that many bytes less free.
pub fn steps_keep_facts()
    ensures { StepsKeepFacts }
{}

/// A body stays at its place when another is added or changed, and when the store moves.
pub fn bodies_stay()
    ensures { BodiesStay }
{}

/// A body is between the hand-off HOB and the end HOB, at a multiple of 8.
pub fn bodies_are_inside()
    ensures { BodiesAreInside }
{}

/// The entries of a list can be read one after the other, each once.
pub fn entries_are_told()
    ensures { EntriesAreTold }
{}

/// Descriptors fit their fields, and the heap is where a plan allows.
pub fn states_fit()
    ensures { StatesFit }
{}

/// Entries and queued pairs name descriptors of their kind.
pub fn named_are_there()
    ensures { NamedAreThere }
{}

/// A sweep goes from pair to pair, PPI by PPI and then by registration.
pub fn sweeps_go_on()
    ensures { SweepsGoOn }
{}
