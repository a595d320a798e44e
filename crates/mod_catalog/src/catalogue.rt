// The catalogue of a boot: its volumes and modules, each in the order of its numbers.
use act_code::Script;
use depex_code::Depex;
use pi_base::{Guid, Seq};

/// All volumes and modules of a set of images.
pub struct Catalog {
    /// A plan volume, then the volumes nested in it by place, each followed by its own; then the next plan volume.
    pub volumes: Seq<VolumeEntry>,
    /// Volume by volume, and in a volume by place.
    pub modules: Seq<Module>,
}

// One drop function for all catalogues keeps the proofs of the calls that own one small.
impl Drop for Catalog {
    fn drop(self) {
        let Catalog {
            volumes: _,
            modules: _,
        } = self;
    }
}

/// A volume, and where it is mapped.
#[derive(Clone, Copy, PartialEq, Eq)]
pub struct VolumeEntry {
    /// The physical address of its first byte.
    pub base: u64,
    /// FvLength, in bytes.
    pub len: u64,
    /// The name in its extended header, if it has one.
    pub name: Option<Guid>,
    /// The number of the volume in which it is nested. None for a volume of the plan.
    pub parent: Option<u32>,
}

/// A file that has a module for PEI, for DXE or for both.
#[derive(Drop)]
pub struct Module {
    /// The number of its volume.
    pub volume: u32,
    /// The offset of its file's header in its volume.
    pub at: u64,
    /// The name of its file.
    pub name: Guid,
    /// The type of its file.
    pub kind: u8,
    /// What runs in PEI.
    pub pei: Option<Part>,
    /// What runs in DXE.
    pub dxe: Option<Part>,
}

/// What a module has for one phase.
#[derive(Drop)]
pub struct Part {
    /// Its place among the kept names of the a priori list, from 0.
    pub rank: Option<u32>,
    /// Its dependency expression.
    pub expr: PartExpr,
    /// Its actions. The script has no blocks if the file has no script.
    pub script: Script,
}

/// The dependency expression of a part.
#[derive(Drop)]
pub enum PartExpr {
    /// There is no expression.
    Absent,
    /// It has one that cannot be read, with the offset of the opcode that fails.
    Malformed(u32),
    /// It has one.
    Held(Depex),
}
