// How much a boot takes at most (own).

/// How many volumes there are, with the nested ones.
pub const MOST_VOLUMES: usize = 256;

/// How many modules there are in all volumes.
pub const MOST_MODULES: usize = 4096;

/// How many bytes all scripts have together.
pub const MOST_SCRIPT_BYTES: usize = 0x100_0000;

/// How deep volumes are nested: a volume of the plan has depth 1.
pub const MOST_DEPTH: usize = 4;
