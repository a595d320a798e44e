// The board of all tests, temporary RAM, RAM and a volume, and the stores over it: the program's, and of plain lists.
ghost use Rattle.std.specs.Prelude.{◌≤◌, ◌+◌, IfOk};
ghost use Rattle.boot_plan.specs.declared.limits.TheConstants.{MOST_TEMP};
ghost use Rattle.store_model.specs.{Service.Present, StoreCall.Anything};
ghost use Rattle.mem_store.specs.MemState.{StandsFor};
ghost use Rattle.store_plain.specs.PlainState.{stands_for};
ghost use Rattle.heap_trials.specs.Volumes.{AreVolumes};

use mem_store::MemStore;
use phys_mem::Rom;
use pi_base::{OutOfMemory, Seq, Span};
use std::alloc::Global;
use store_plain::PlainStore;

/// The base of temporary RAM.
pub(crate) const TEMP: u64 = 0x8000_0000;

/// RAM.
pub(crate) const RAM: Span = Span {
    base: 0x4000_0000,
    len: 0x2_0000,
};

/// The base of the one mapped volume.
pub(crate) const ROM: u64 = 0xff80_0000;

/// Its bytes.
const VOLUME: [u8; 16] = [0, 0, 0, 0, 0, 0, 0, 0, 0, 0, 0, 0, 0, 0, 0, 1];

// The volume.
fn volumes(alloc: Global) -> Result<Seq<Rom>, OutOfMemory>
    ensures { IfOk result (λ roms. AreVolumes roms) }
{
    let mut bytes = Seq::new(alloc);
    bytes.append(&VOLUME)?;
    let mut roms = Seq::new(alloc);
    roms.push(Rom { base: ROM, bytes })?;
    Ok(roms)
}

/// The store of the program over so many bytes of temporary RAM, the last of which are for early pages.
pub(crate) fn store_over(alloc: Global, len: u64, pages: u64) -> Result<MemStore, OutOfMemory>
    requires len { len ≤ MOST_TEMP }
    requires pages { pages + 64 ≤ len }
    ensures { IfOk result (λ store. Present (StandsFor store) Anything) }
{
    let temp = Span { base: TEMP, len };
    let roms = volumes(alloc)?;
    MemStore::new(alloc, temp, pages, RAM, roms)
}

/// A store of plain lists over the same.
pub(crate) fn lists_over(alloc: Global, len: u64, pages: u64) -> Result<PlainStore, OutOfMemory>
    requires len { len ≤ MOST_TEMP }
    requires pages { pages + 64 ≤ len }
    ensures { IfOk result (λ store. Present (stands_for store) Anything) }
{
    let temp = Span { base: TEMP, len };
    let roms = volumes(alloc)?;
    Ok(PlainStore::new(alloc, temp, pages, RAM, roms))
}
