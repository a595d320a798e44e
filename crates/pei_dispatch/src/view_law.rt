// Laws that the dispatcher stands on.
ghost use Rattle.mod_catalog.specs.declared.catalogue.Catalog.{Catalog};
ghost use Rattle.pei_dispatch.specs.{declared.queue.PeiQueue.PeiQueue as Queue, Queue.Shows, View.AreAlike, View.View};

/// A queue shows each view that says what one says that it shows.
pub fn alike_views_are_shown()
    ensures { (catalog : Catalog) (queue : Queue) (view other : View) → Shows catalog queue view → AreAlike view other
        → Shows catalog queue other }
{}
