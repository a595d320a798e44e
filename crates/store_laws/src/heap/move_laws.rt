//! The move.
ghost use Rattle.store_laws.specs.Moving.{DescriptorsAreMoved, HeapsAreMoved, NodesAreMoved, PagesAreMoved, ShiftsAreOnce};

/// The heap while it is moved, and once all of it has moved.
pub fn heap_shifted()
    ensures node { NodesAreMoved }
    ensures descriptor { DescriptorsAreMoved }
    ensures pages { PagesAreMoved }
    ensures moved { HeapsAreMoved }
    ensures once { ShiftsAreOnce }
{}
