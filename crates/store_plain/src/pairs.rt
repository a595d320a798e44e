// The pairs of PPIs and notifications with equal GUIDs, by the places of their descriptors.
ghost use Rattle.std.specs.Prelude.{◌≡◌, ◌++◌, IfOk, OnOk};
ghost use Rattle.store_model.specs.Service.Descriptor.{offsets, descriptors};
ghost use Rattle.store_model.specs.{Service.Install.pairs_of, Service.Install.row_of, Service.Notify.new_dispatches};

use crate::store::PlainStore;
use pi_base::OutOfMemory;
use std::alloc::Global;
use store_model::{Desc, DescKind, Entry};

// The places of descriptors.
pub(crate) fn offsets(alloc: Global, list: &[Desc]) -> Result<Vec<u64>, OutOfMemory>
    ensures { IfOk result (λ places. places.items ≡ offsets list.now) }
{
    let mut places = Vec::new(alloc);
    'descs: for d in list {
        places.push(d.offset).map_err(|_| OutOfMemory)?;
    }
    Ok(places)
}

// The places of the descriptors that entries name.
pub(crate) fn descriptors(alloc: Global, entries: &[Entry]) -> Result<Vec<u64>, OutOfMemory>
    ensures { IfOk result (λ places. places.items ≡ descriptors entries.now) }
{
    let mut places = Vec::new(alloc);
    'entries: for entry in entries {
        places.push(entry.descriptor).map_err(|_| OutOfMemory)?;
    }
    Ok(places)
}

impl PlainStore {
    ghost use Rattle.store_plain.specs.PlainState.{state_of};

    // The places of those of a list that are dispatch notifications.
    pub(crate) fn dispatches_of(&self, list: &[Desc]) -> Result<Vec<u64>, OutOfMemory>
        ensures { IfOk result (λ places. places.items ≡ new_dispatches (state_of self.now) list.now) }
    {
        let mut places = Vec::new(*self.hobs.allocator());
        'descs: for d in list {
            if self.kind_at(d.offset) != DescKind::Callback {
                places.push(d.offset).map_err(|_| OutOfMemory)?;
            }
        }
        Ok(places)
    }

    // Adds the pairs of one PPI.
    fn add_row(
        &self,
        ppi: u64,
        notes: &[u64],
        pairs: &mut Vec<(u64, u64)>,
    ) -> Result<(), OutOfMemory>
        ensures { OnOk result (pairs.new.items ≡ pairs.old.items ++ row_of (state_of self.now) ppi notes.now) }
    {
        'notes: for note in notes {
            if self.have_one_guid(ppi, *note) {
                pairs.push((ppi, *note)).map_err(|_| OutOfMemory)?;
            }
        }
        Ok(())
    }

    // The pairs, in order of PPI and then of notification.
    pub(crate) fn pairs_of(
        &self,
        ppis: &[u64],
        notes: &[u64],
    ) -> Result<Vec<(u64, u64)>, OutOfMemory>
        ensures { IfOk result (λ pairs. pairs.items ≡ pairs_of (state_of self.now) ppis.now notes.now) }
    {
        let mut pairs = Vec::new(*self.hobs.allocator());
        'ppis: for ppi in ppis {
            self.add_row(*ppi, notes, &mut pairs)?;
        }
        Ok(pairs)
    }
}
