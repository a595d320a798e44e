// The limits that a plan keeps (own).

/// The least address of memory and of a volume.
pub const LEAST_ADDRESS: u64 = 0x10_0000;

/// The greatest end of temporary RAM and of RAM.
pub const MOST_END: u64 = 0x100_0000_0000;

/// The base of a volume is a multiple of this.
pub const VOLUME_ALIGNMENT: u64 = 8;

/// The least size of temporary RAM, in bytes; so much of it the heap has at least.
pub const LEAST_TEMP: u64 = 0x4000;

/// The greatest size of temporary RAM, in bytes.
pub const MOST_TEMP: u64 = 0x10_0000;

/// The least size of RAM, in bytes.
pub const LEAST_RAM: u64 = 0x1000;

/// The greatest size of RAM, in bytes.
pub const MOST_RAM: u64 = 0x1000_0000;

/// The greatest number of actions of a run.
pub const MOST_FUEL: u64 = 1_000_000;

/// The fuel of a run if the plan gives none.
pub const DEFAULT_FUEL: u32 = 100_000;

/// The greatest size of the page region, in bytes.
pub const MOST_PAGES: u64 = 0x10_0000;

/// The greatest number of volumes of a plan; nested ones are not counted.
pub const MOST_PLAN_VOLUMES: usize = 16;

/// The greatest length of a volume's name, in bytes.
pub const MOST_NAME: usize = 255;
