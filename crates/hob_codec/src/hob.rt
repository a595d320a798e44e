// A hand-off block.
use pi_base::Guid;

/// The hand-off HOB's fields; its Version is 9. PI 1.8, volume 3, `EFI_HOB_HANDOFF_INFO_TABLE`.
#[derive(Clone, Copy, PartialEq, Eq)]
pub struct Handoff {
    /// The boot mode, an `EFI_BOOT_MODE`.
    pub boot_mode: u32,
    /// The address after the memory that the HOB list may use.
    pub top: u64,
    /// The address of its first byte.
    pub bottom: u64,
    /// The address after its free part.
    pub free_top: u64,
    /// The address of the first byte of its free part.
    pub free_bottom: u64,
    /// The address of the end HOB.
    pub end: u64,
}

/// A hand-off block. Addresses and lengths are in bytes.
#[derive(Clone, Copy, PartialEq, Eq)]
pub enum Hob<'a> {
    /// PI 1.8, volume 3, `EFI_HOB_HANDOFF_INFO_TABLE`.
    Handoff(Handoff),
    /// PI 1.8, volume 3, `EFI_HOB_MEMORY_ALLOCATION`.
    Allocation {
        name: Guid,
        base: u64,
        length: u64,
        memory_type: u32,
    },
    /// PI 1.8, volume 3, `EFI_HOB_RESOURCE_DESCRIPTOR`.
    Resource {
        owner: Guid,
        kind: u32,
        attributes: u32,
        start: u64,
        length: u64,
    },
    /// PI 1.8, volume 3, `EFI_HOB_GUID_TYPE`, with the data after the GUID.
    Named {
        name: Guid,
        body: &'a [u8],
    },
    /// PI 1.8, volume 3, `EFI_HOB_FIRMWARE_VOLUME`.
    Volume {
        base: u64,
        length: u64,
    },
    /// PI 1.8, volume 3, `EFI_HOB_CPU`: the sizes of the memory and I/O spaces, in bits.
    Cpu {
        memory: u8,
        io: u8,
    },
    /// PI 1.8, volume 3, `EFI_HOB_MEMORY_POOL`.
    Pool {
        body: &'a [u8],
    },
    /// PI 1.8, volume 3, `EFI_HOB_FIRMWARE_VOLUME2`.
    Volume2 {
        base: u64,
        length: u64,
        volume: Guid,
        file: Guid,
    },
    /// A HOB of another type, and the end of a list: type 0xffff, without a body.
    Other {
        kind: u16,
        body: &'a [u8],
    },
}
