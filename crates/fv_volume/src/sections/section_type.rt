//! The types of sections. PI 1.8, volume 3, `EFI_SECTION_TYPE`.

/// `EFI_SECTION_COMPRESSION`.
pub const COMPRESSION: u8 = 0x01;

/// `EFI_SECTION_GUID_DEFINED`.
pub const GUID_DEFINED: u8 = 0x02;

/// `EFI_SECTION_DISPOSABLE`.
pub const DISPOSABLE: u8 = 0x03;

/// `EFI_SECTION_PE32`.
pub const PE32: u8 = 0x10;

/// `EFI_SECTION_PIC`.
pub const PIC: u8 = 0x11;

/// `EFI_SECTION_TE`.
pub const TE: u8 = 0x12;

/// `EFI_SECTION_DXE_DEPEX`.
pub const DXE_DEPEX: u8 = 0x13;

/// `EFI_SECTION_VERSION`.
pub const VERSION: u8 = 0x14;

/// `EFI_SECTION_USER_INTERFACE`.
pub const USER_INTERFACE: u8 = 0x15;

/// `EFI_SECTION_FIRMWARE_VOLUME_IMAGE`.
pub const VOLUME_IMAGE: u8 = 0x17;

/// `EFI_SECTION_FREEFORM_SUBTYPE_GUID`.
pub const FREEFORM_GUID: u8 = 0x18;

/// `EFI_SECTION_RAW`.
pub const RAW: u8 = 0x19;

/// `EFI_SECTION_PEI_DEPEX`.
pub const PEI_DEPEX: u8 = 0x1b;

/// `EFI_SECTION_MM_DEPEX`.
pub const MM_DEPEX: u8 = 0x1c;
