// The ends of the lists.
ghost use Rattle.std.specs.Prelude.{◌≡◌, ◌<◌, ◌+◌, ◌^◌};
ghost use Rattle.store_model.specs.StoreState.{StoreState};
ghost use Rattle.store_laws.specs.{Heads.last_address, Items.first_address, Items.items};
ghost use Rattle.pei_heap.specs.NewEntry as N;

use store_model::EntryList;

/// The addresses of the first and last nodes of the PPIs, the callbacks, the dispatch notifications and the queued pairs, or 0 for an empty list; and how many
/// PPIs and callbacks there are.
#[derive(Clone, Copy)]
pub struct Heads {
    pub ppi: u64,
    pub ppi_tail: u64,
    pub note: u64,
    pub note_tail: u64,
    pub later: u64,
    pub later_tail: u64,
    pub queue: u64,
    pub queue_tail: u64,
    pub ppis: u32,
    pub notes: u32,
}

// The first node of a list with one more after the last.
fn first_of(head: u64, address: u64) -> u64
    ensures { result ≡ N.first_of head address }
{
    if head == 0 { address } else { head }
}

impl Heads {
    ghost use Rattle.pei_heap.specs.Linked.{AreHeads};
    ghost use Rattle.pei_heap.specs.NewEntry.{with_last_node};
    ghost use Rattle.pei_heap.specs.Popped.{with_next_pair};

    // The first node of a list.
    pub(crate) fn first(&self, list: EntryList) -> u64
        ensures { (s : StoreState) → AreHeads s self.now → result ≡ first_address s.base (items s list) }
    {
        match list {
            EntryList::Ppis => self.ppi,
            EntryList::Callbacks => self.note,
            EntryList::Dispatches => self.later,
            EntryList::Pendings => self.queue,
        }
    }

    // The last node of a list.
    pub(crate) fn last(&self, list: EntryList) -> u64
        ensures { (s : StoreState) → AreHeads s self.now → result ≡ last_address s.base (items s list) }
    {
        match list {
            EntryList::Ppis => self.ppi_tail,
            EntryList::Callbacks => self.note_tail,
            EntryList::Dispatches => self.later_tail,
            EntryList::Pendings => self.queue_tail,
        }
    }

    // A node is the last of a list.
    pub(crate) fn push(&mut self, list: EntryList, address: u64)
        requires ppis { self.old.ppis + 1 < 2 ^ 32 }
        requires notes { self.old.notes + 1 < 2 ^ 32 }
        ensures { self.new ≡ with_last_node list address self.old }
    {
        match list {
            EntryList::Ppis => {
                self.ppi = first_of(self.ppi, address);
                self.ppi_tail = address;
                self.ppis += 1;
            }
            EntryList::Callbacks => {
                self.note = first_of(self.note, address);
                self.note_tail = address;
                self.notes += 1;
            }
            EntryList::Dispatches => {
                self.later = first_of(self.later, address);
                self.later_tail = address;
            }
            EntryList::Pendings => {
                self.queue = first_of(self.queue, address);
                self.queue_tail = address;
            }
        }
    }

    // The first queued pair leaves; the next one's node, or 0, is then the first.
    pub(crate) fn pop(&mut self, next: u64)
        ensures { self.new ≡ with_next_pair next self.old }
    {
        self.queue = next;
        if next == 0 {
            self.queue_tail = 0;
        }
    }
}
