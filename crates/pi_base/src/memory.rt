// Running out of memory.

/// Memory ran out. Each call that returns it documents what it leaves.
#[derive(Clone, Copy, Debug, PartialEq, Eq)]
pub struct OutOfMemory;
