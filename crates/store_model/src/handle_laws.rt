//! Laws of the handles of DXE, each on a function without a body.
ghost use Rattle.store_model.specs.HandleFacts.{KeepHandleFacts, LocatedIsLowest};

/// At the beginning and after each service, interfaces are in order of handle, and a handle has each protocol at most once.
pub fn handle_services_keep_facts()
    ensures { KeepHandleFacts }
{}

/// The handle that is located is the lowest one with the protocol.
pub fn located_handle_is_lowest()
    ensures { LocatedIsLowest }
{}
