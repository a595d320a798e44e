//! What a store keeps, in order. A place is an offset from the heap's base.
use crate::store_handle::DescKind;
use pi_base::{Guid, Seq};

/// The number that the core has among module numbers.
pub const CORE: u32 = u32::MAX;

/// A PPI or a notification: the places of its node and of its descriptor, and the module whose script made it (PI 1.8, volume 1, "PEI Services").
#[derive(Clone, Copy)]
pub struct Entry {
    /// The place of its node.
    pub node: u64,
    /// The place of its descriptor.
    pub descriptor: u64,
    /// The number of the module, or `CORE`.
    pub by: u32,
}

/// A queued pair: a dispatch notification that is still to run for a PPI.
#[derive(Clone, Copy)]
pub struct Pending {
    /// The place of its node.
    pub node: u64,
    /// The place of the notification's descriptor.
    pub descriptor: u64,
    /// The place of the PPI's descriptor.
    pub ppi: u64,
    /// The number of the module whose call queued it, or `CORE`.
    pub by: u32,
}

/// What a descriptor says (PI 1.8, volume 1, `EFI_PEI_PPI_DESCRIPTOR` and `EFI_PEI_NOTIFY_DESCRIPTOR`).
#[derive(Clone, Copy)]
pub struct DescriptorBody {
    pub kind: DescKind,
    pub guid: Guid,
    /// The physical address of the GUID, if it is in a volume. None if the GUID follows the descriptor.
    pub stands: Option<u64>,
    /// A PPI's value, or a notification's entry: module times 64, and block.
    pub number: u64,
}

/// The contents of a HOB of allocated pages.
#[derive(Clone, Copy)]
pub struct AllocationBody {
    /// The type of the memory.
    pub memory_type: u32,
    /// How many bytes were taken.
    pub len: u64,
    /// How many bytes the first byte is below the end from which pages are taken.
    pub below: u64,
}

/// What follows a HOB's header.
#[derive(Drop)]
pub enum Body {
    /// Bytes that no module shifts.
    Bytes(Seq<u8>),
    /// A PPI's descriptor or a notification's, in a pool.
    Descriptor(DescriptorBody),
    /// A node of a list, in a pool.
    Node,
    /// Pages that were taken.
    Allocation(AllocationBody),
}

/// A HOB: its type and its body (PI 1.8, volume 3, `EFI_HOB_GENERIC_HEADER`).
#[derive(Drop)]
pub struct HobEntry {
    pub kind: u16,
    pub body: Body,
}
