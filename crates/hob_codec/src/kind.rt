// The types of HOBs. PI 1.8, volume 3, HOB code definitions.

/// `EFI_HOB_TYPE_HANDOFF`: the first HOB of a list.
pub const HANDOFF: u16 = 1;

/// `EFI_HOB_TYPE_MEMORY_ALLOCATION`.
pub const ALLOCATION: u16 = 2;

/// `EFI_HOB_TYPE_RESOURCE_DESCRIPTOR`.
pub const RESOURCE: u16 = 3;

/// `EFI_HOB_TYPE_GUID_EXTENSION`: data under a GUID.
pub const NAMED: u16 = 4;

/// `EFI_HOB_TYPE_FV`: a firmware volume.
pub const VOLUME: u16 = 5;

/// `EFI_HOB_TYPE_CPU`.
pub const CPU: u16 = 6;

/// `EFI_HOB_TYPE_MEMORY_POOL`.
pub const POOL: u16 = 7;

/// `EFI_HOB_TYPE_FV2`: a firmware volume that came out of a file.
pub const VOLUME2: u16 = 9;

/// `EFI_HOB_TYPE_END_OF_HOB_LIST`.
pub const END: u16 = 0xffff;
