//! What a descriptor is of, by the byte of `desc` (own).

/// A PPI.
pub const PPI: u8 = 0;

/// A callback notification.
pub const CALLBACK: u8 = 1;

/// A dispatch notification.
pub const DISPATCH: u8 = 2;
