//! Nodes that are linked, and the ends of their lists.
ghost use Rattle.store_laws.specs.Heads.{EndsAreKept, FirstIsPopped, FirstIsPushed, ItemsArePushed, LastIsInside, LastIsNamed, LastIsPopped, LastIsPushed, PlacesAreKept};
ghost use Rattle.store_laws.specs.Linking.{CallbacksAreLinked, DispatchesAreLinked, PairsAreLinked, PpisAreLinked};

use pi_base::little_endian;

/// An entry that takes a new node is linked after the others of its list.
pub fn nodes_linked()
    ensures ppi { PpisAreLinked }
    ensures callback { CallbacksAreLinked }
    ensures dispatch { DispatchesAreLinked }
    ensures pair { PairsAreLinked }
{}

/// The first and the last node of a list, before and after a change.
pub fn heads_moved()
    ensures named { LastIsNamed }
    ensures inside { LastIsInside }
    ensures first_pushed { FirstIsPushed }
    ensures last_pushed { LastIsPushed }
    ensures pushed { ItemsArePushed }
    ensures first_popped { FirstIsPopped }
    ensures last_popped { LastIsPopped }
    ensures places { PlacesAreKept }
    ensures ends { EndsAreKept }
{
    little_endian();
}
