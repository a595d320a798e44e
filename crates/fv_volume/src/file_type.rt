//! The types of files. PI 1.8, volume 3, `EFI_FV_FILETYPE`.

/// `EFI_FV_FILETYPE_RAW`.
pub const RAW: u8 = 0x01;

/// `EFI_FV_FILETYPE_FREEFORM`: sections of any content, among them the lists of what starts first.
pub const FREEFORM: u8 = 0x02;

/// `EFI_FV_FILETYPE_SECURITY_CORE`.
pub const SECURITY_CORE: u8 = 0x03;

/// `EFI_FV_FILETYPE_PEI_CORE`.
pub const PEI_CORE: u8 = 0x04;

/// `EFI_FV_FILETYPE_DXE_CORE`.
pub const DXE_CORE: u8 = 0x05;

/// `EFI_FV_FILETYPE_PEIM`.
pub const PEIM: u8 = 0x06;

/// `EFI_FV_FILETYPE_DRIVER`.
pub const DRIVER: u8 = 0x07;

/// `EFI_FV_FILETYPE_COMBINED_PEIM_DRIVER`.
pub const COMBINED_PEIM_DRIVER: u8 = 0x08;

/// `EFI_FV_FILETYPE_APPLICATION`.
pub const APPLICATION: u8 = 0x09;

/// `EFI_FV_FILETYPE_MM`.
pub const MM: u8 = 0x0a;

/// `EFI_FV_FILETYPE_FIRMWARE_VOLUME_IMAGE`.
pub const VOLUME_IMAGE: u8 = 0x0b;

/// `EFI_FV_FILETYPE_COMBINED_MM_DXE`.
pub const COMBINED_MM_DXE: u8 = 0x0c;

/// `EFI_FV_FILETYPE_FFS_PAD`, which is never listed.
pub const PAD: u8 = 0xf0;
