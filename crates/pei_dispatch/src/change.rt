// Which GUIDs are installed changes.
ghost use Rattle.std.specs.Prelude.{◌≡◌, [], List, Bool, IfSome, true, option_to_list};
ghost use Rattle.pi_base.specs.{Lists.Each, declared.guid.Guid.Guid as OfGuid};
ghost use Rattle.mod_catalog.specs.declared.catalogue.Catalog.{Catalog as OfCatalog};
ghost use Rattle.store_model.specs.Service.Install.{has_ppi};
ghost use Rattle.boot_model.specs.PeiMachine.{PeiMachine};
ghost use Rattle.pei_dispatch.specs.Noted.{AreKnown, IsNoted};
ghost use Rattle.pei_dispatch.specs.Queue.{IsQueueOf, OwesFor, ShowsBehind};
ghost use Rattle.pei_dispatch.specs.View.{IsEventOf, event_guids, with_guids};
ghost use Rattle.wait_index.specs.Index.{IsIndex};

use crate::queue::PeiQueue;
use pi_base::Guid;
use wait_index::{WaitIndex, asked_are_those_of_the_bound_in_pei};

// A GUID is installed still, or not any more, if one is given.
fn take_away(index: &mut WaitIndex, gone: Option<Guid>, is_still_there: bool)
    ensures { (catalog : OfCatalog) (has : OfGuid → Bool) → IsIndex catalog index.old → IfSome gone (λ guid. has guid ≡ is_still_there)
        → IsNoted catalog has [] (option_to_list gone) index.old index.new }
{
    if let Some(guid) = gone {
        index.changed(&guid, is_still_there);
    }
}

// GUIDs are installed.
fn put_in(index: &mut WaitIndex, guids: &[Guid])
    ensures { (catalog : OfCatalog) (has : OfGuid → Bool) (before : List OfGuid) → IsIndex catalog index.old
        → Each (λ guid. has guid ≡ true) guids.now
        → AreKnown has before index.old → IsNoted catalog has before guids.now index.old index.new }
{
    'guids: for guid in guids {
        index.changed(guid, true);
    }
}

impl PeiQueue {
    /// PPIs of these GUIDs are installed now. `gone` is the GUID of a PPI that was taken away, if one was, and `is_still_there` tells whether another PPI has it still.
    pub fn changed(&mut self, there: &[Guid], gone: Option<Guid>, is_still_there: bool)
        ensures shows { (catalog : OfCatalog) (has : OfGuid → Bool)
            → ShowsBehind catalog self.old self.new (λ view. IsEventOf view.has has gone is_still_there there.now) (with_guids has) }
        ensures cursor { self.new.cursor ≡ self.old.cursor }
        ensures walked { self.new.walked ≡ self.old.walked }
        ensures owed { (catalog : OfCatalog) (m : PeiMachine) (has : OfGuid → Bool) → IsQueueOf catalog m self.old
            → IsEventOf (has_ppi m.store) has gone is_still_there there.now
            → OwesFor catalog m (event_guids gone there.now) self.old self.new }
    {
        asked_are_those_of_the_bound_in_pei();
        take_away(&mut self.index, gone, is_still_there);
        put_in(&mut self.index, there);
    }
}
