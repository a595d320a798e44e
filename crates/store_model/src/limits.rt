//! How many there are at most (own).

/// How many numbers notifications have: each is that of a module, below 4,096, times 64, and a block's, below 64.
pub const NOTE_NUMBERS: u64 = 0x4_0000;
