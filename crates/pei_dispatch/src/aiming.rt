//! Where the search for the next PEIM begins.
ghost use Rattle.std.specs.Prelude.{◌≡◌, ◌≤◌, length};
ghost use Rattle.mod_catalog.specs.declared.catalogue.Catalog.{Catalog as OfCatalog};
ghost use Rattle.pei_dispatch.specs.Queue.{Shows, owed_by, parts_in};
ghost use Rattle.pei_dispatch.specs.{View.View, Choices.IsPlaceFor};

use crate::PeiQueue;

/// The search begins at the PEIM that is named, where it is in the order.
pub fn aim(queue: &mut PeiQueue, named: Option<u32>)
    requires { (catalog : OfCatalog) × (view : View) × Shows catalog queue.old view }
    ensures shows { (catalog : OfCatalog) (view : View) → Shows catalog queue.old view → Shows catalog queue.new view }
    ensures owed { owed_by queue.new ≡ owed_by queue.old }
    ensures within { queue.old.cursor ≤ length (parts_in queue.old) → queue.new.cursor ≤ length (parts_in queue.old) }
    ensures walked { queue.new.walked ≡ queue.old.walked }
    ensures place { IsPlaceFor (parts_in queue.old) queue.old.cursor named queue.new.cursor }
{
    match named {
        Some(number) => queue.aim(number),
        None => {}
    }
}
