// What a part of the images holds.
ghost use Rattle.std.specs.Prelude.{◌≡◌, ◌++◌, IfOk};

use crate::catalogue::{Module, VolumeEntry};
use pi_base::{OutOfMemory, Seq};
use std::alloc::Global;

/// The volumes and modules of a part of the images, each in the order of its numbers.
#[derive(Drop)]
pub struct Holding {
    pub volumes: Seq<VolumeEntry>,
    pub modules: Seq<Module>,
    /// How many bytes its scripts have together.
    pub script_bytes: u64,
}

// The items of two lists. They are moved.
fn appended<T: Drop>(first: Seq<T>, rest: Seq<T>) -> Result<Seq<T>, OutOfMemory>
    ensures { IfOk result (λ all. all ≡ first ++ rest) }
{
    let mut items = first.into_vec();
    let mut more = rest.into_vec();
    match items.append(&mut more) {
        Ok(()) => Ok(Seq::from_vec(items)),
        Err(_) => Err(OutOfMemory),
    }
}

impl Holding {
    ghost use Rattle.std.specs.Prelude.{◌≡◌, ◌+◌, ◌≤◌, ◌++◌, IfOk};
    ghost use Rattle.mod_catalog.specs.Holding.{joined, nothing};

    /// No volume and no module. It allocates nothing.
    pub fn nothing(alloc: Global) -> Holding
        ensures { result ≡ nothing }
    {
        Holding {
            volumes: Seq::new(alloc),
            modules: Seq::new(alloc),
            script_bytes: 0,
        }
    }

    /// One part of the images, followed by another.
    pub fn joined(self, rest: Holding) -> Result<Holding, OutOfMemory>
        requires { self.script_bytes + rest.script_bytes ≤ u64.MAX }
        ensures { IfOk result (λ all. all ≡ joined self rest) }
    {
        Ok(Holding {
            volumes: appended(self.volumes, rest.volumes)?,
            modules: appended(self.modules, rest.modules)?,
            script_bytes: self.script_bytes + rest.script_bytes,
        })
    }
}
