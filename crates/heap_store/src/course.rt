// Where a heap lay, and where it lies.
ghost use Rattle.std.specs.Prelude.{◌≡◌};
ghost use Rattle.store_model.specs.{StoreState.Range, StoreState.StoreState, Migration.moved_number};

/// Where a heap lay with the page region behind it, and where it lies.
#[derive(Clone, Copy)]
pub struct Course {
    /// The address of the old heap.
    pub from: u64,
    /// Its length.
    pub len: u64,
    /// The length of the page region behind it.
    pub pages: u64,
    /// The address of the new heap.
    pub to: u64,
    /// Its length.
    pub room: u64,
}

impl Course {
    ghost use Rattle.heap_store.specs.Course.{IsCourse};

    /// What a number is after the move.
    pub fn number(&self, n: u64) -> u64
        requires { (s : StoreState) × (to : Range) × IsCourse s to self.now }
        ensures { (s : StoreState) (to : Range) → IsCourse s to self.now → result ≡ moved_number s to n }
    {
        let end = self.from + self.len;
        let page_end = end + self.pages;
        if n >= self.from && n < end {
            n - self.from + self.to
        } else if n >= end && n < page_end {
            self.to + self.room - (page_end - n)
        } else {
            n
        }
    }
}
