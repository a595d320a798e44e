// How much of each there may be (own).

/// The most processors.
pub const MOST_PROCESSORS: u32 = 64;

/// The most shared cells.
pub const MOST_CELLS: u32 = 64;

/// The most operations of a job.
pub const MOST_OPS: usize = 64;
