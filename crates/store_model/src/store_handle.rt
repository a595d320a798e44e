//! What a store hands out. An offset counts from the heap's base.
ghost use Rattle.std.specs.Prelude.{◌≡◌};
ghost use Rattle.store_model.specs.{HeapImage.kind_flags, Service.fault_status};
ghost use Rattle.store_model.specs.declared.store_handle.StoreFault.TheVariants as F;

use pi_base::{Guid, OutOfMemory, Word};

/// A pool: the offset of its body, and the bytes that were asked for.
#[derive(Clone, Copy, PartialEq, Eq)]
pub struct Pool {
    pub offset: u64,
    pub size: u32,
}

/// A descriptor: the offset of its body.
#[derive(Clone, Copy, Default, PartialEq, Eq)]
pub struct Desc {
    pub offset: u64,
}

/// What a descriptor is for (PI 1.8, volume 1, the flags of `EFI_PEI_PPI_DESCRIPTOR` and `EFI_PEI_NOTIFY_DESCRIPTOR`).
#[derive(Clone, Copy, PartialEq, Eq)]
pub enum DescKind {
    /// A PPI.
    Ppi,
    /// A notification that runs inside the call that matches it.
    Callback,
    /// A notification that is queued and runs after the PEIM has returned.
    Dispatch,
}

// The flags of each kind, with `EFI_PEI_PPI_DESCRIPTOR_TERMINATE_LIST`, the mark of the last descriptor of a list.
const PPI_FLAGS: u64 = 0x8000_0010;

const CALLBACK_FLAGS: u64 = 0x8000_0020;

const DISPATCH_FLAGS: u64 = 0x8000_0040;

impl DescKind {
    /// The flags of a descriptor of this kind that is the last of its list.
    pub fn flags(self) -> u64
        ensures { result ≡ kind_flags self }
    {
        match self {
            DescKind::Ppi => PPI_FLAGS,
            DescKind::Callback => CALLBACK_FLAGS,
            DescKind::Dispatch => DISPATCH_FLAGS,
        }
    }
}

/// Where the GUID of a new descriptor comes from.
#[derive(Clone, Copy)]
pub enum GuidFrom {
    /// It is after the descriptor.
    Inline(Guid),
    /// It is at this address, in a volume.
    At(u64),
}

/// The callbacks that a call still has to visit: pairs of a PPI and a callback, in order of PPI and then of registration.
#[derive(Clone, Copy, PartialEq, Eq)]
pub struct Sweep {
    /// The place after the last PPI.
    pub ppi_to: u32,
    /// The first callback's place.
    pub note_from: u32,
    /// The place after the last callback.
    pub note_to: u32,
    /// The PPI's place of the next pair.
    pub ppi_at: u32,
    /// The callback's place of the next pair.
    pub note_at: u32,
}

/// What a notification receives: its entry, and the PPI for which it runs, with GUID and value.
#[derive(Clone, Copy, PartialEq, Eq)]
pub struct Firing {
    pub entry: u32,
    pub ppi: Desc,
    pub guid: Guid,
    pub value: u64,
}

/// A list of entries, each of which has a node.
#[derive(Clone, Copy)]
pub enum EntryList {
    /// The installed PPIs.
    Ppis,
    /// The notifications that run inside the call that matches them.
    Callbacks,
    /// The notifications that are queued.
    Dispatches,
    /// The queued pairs of a PPI and a dispatch notification.
    Pendings,
}

/// What a store says about an entry.
#[derive(Clone, Copy, PartialEq, Eq)]
pub struct EntryTold {
    /// The offset of its node.
    pub node: u64,
    /// Its descriptor's GUID; of a queued pair that of the PPI.
    pub guid: Guid,
    /// A PPI's value, or a notification's entry; of a queued pair that of the notification.
    pub number: u64,
    /// The number of the module whose script made it, or `CORE`.
    pub by: u32,
}

/// A HOB's type and length, and the offset of the next one.
#[derive(Clone, Copy)]
pub struct HobSpan {
    pub kind: u16,
    /// In bytes, with the header.
    pub length: u16,
    pub next: u64,
}

/// Why a store refused a call. The state is then unchanged.
#[derive(Clone, Copy, Debug, PartialEq, Eq)]
pub enum StoreFault {
    /// What the call needs is more than is free.
    Full,
    /// An argument is of the wrong kind or out of range.
    Bad,
    /// No PPI names the descriptor.
    Missing,
    /// There are no pages before the move.
    NotYet,
    /// Memory ran out.
    Memory,
}

impl StoreFault {
    /// The status that the refused call returns (PI 1.8, volume 1, the status codes of "PEI Services"). None if memory ran out, which ends the boot.
    pub fn status(self) -> Option<Word>
        ensures { result ≡ fault_status self }
    {
        match self {
            StoreFault::Full => Some(Word::OutOfResources),
            StoreFault::Bad => Some(Word::InvalidParameter),
            StoreFault::Missing => Some(Word::NotFound),
            StoreFault::NotYet => Some(Word::NotAvailableYet),
            StoreFault::Memory => None,
        }
    }
}

impl From<OutOfMemory> for StoreFault {
    ghost from_gives = { λ _ fault. fault ≡ F.Memory };

    fn from(_want: OutOfMemory) -> StoreFault {
        StoreFault::Memory
    }
}
