// A plan.
use pi_base::{Seq, Span};

/// A volume of a plan.
#[derive(Drop)]
pub struct PlanVolume {
    /// The address of its first byte.
    pub base: u64,
    /// The name of its file.
    pub name: Seq<u8>,
}

/// What a boot starts from: memory, fuel and volumes.
#[derive(Drop)]
pub struct Plan {
    /// Temporary RAM.
    pub temp: Span,
    /// RAM, in which permanent memory will be.
    pub ram: Span,
    /// The volumes in the order of the text; the first is the boot volume.
    pub volumes: Seq<PlanVolume>,
    /// How many actions the run may take.
    pub fuel: u32,
    /// How many bytes at the end of temporary RAM serve pages before migration, or 0.
    pub pages: u64,
}
