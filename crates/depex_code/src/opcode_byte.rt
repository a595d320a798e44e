//! The opcodes of dependency expressions. PI 1.8, volume 1, "Dependency Expression Instruction Set"; BEFORE, AFTER and SOR are of volume 2.

/// `EFI_DEP_BEFORE`.
pub const BEFORE: u8 = 0x00;

/// `EFI_DEP_AFTER`.
pub const AFTER: u8 = 0x01;

/// `EFI_DEP_PUSH`.
pub const PUSH: u8 = 0x02;

/// `EFI_DEP_AND`.
pub const AND: u8 = 0x03;

/// `EFI_DEP_OR`.
pub const OR: u8 = 0x04;

/// `EFI_DEP_NOT`.
pub const NOT: u8 = 0x05;

/// `EFI_DEP_TRUE`.
pub const TRUE: u8 = 0x06;

/// `EFI_DEP_FALSE`.
pub const FALSE: u8 = 0x07;

/// `EFI_DEP_END`.
pub const END: u8 = 0x08;

/// `EFI_DEP_SOR`.
pub const SOR: u8 = 0x09;
