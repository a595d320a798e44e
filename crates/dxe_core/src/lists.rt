// Numbers by name.
ghost use Rattle.std.specs.Prelude.{◌≡◌, ◌++◌, ◌∷◌, [], Some, OnOk};
ghost use Rattle.pi_base.specs.declared.guid.Guid.{Guid};
ghost use Rattle.dxe_core.specs.Lists.{numbers_under, IsPushed};

use pi_base::{Guid, OutOfMemory};
use std::alloc::Global;
use std::collections::BTreeMap;

/// For each file name the drivers that give it, in discovered order.
#[derive(Drop)]
pub(crate) struct NumberLists {
    lists: BTreeMap<Guid, Vec<u32>, Global>,
    alloc: Global,
}

// Puts a number at the end.
fn push(numbers: &mut Vec<u32>, number: u32) -> Result<(), OutOfMemory>
    ensures { OnOk result (numbers.new.items ≡ numbers.old.items ++ number ∷ []) }
{
    match numbers.push(number) {
        Ok(()) => Ok(()),
        Err(_) => Err(OutOfMemory),
    }
}

impl NumberLists {
    /// No name has a number. It takes no memory.
    pub(crate) fn new(alloc: Global) -> NumberLists
        ensures { (name : Guid) → numbers_under result name ≡ [] }
    {
        NumberLists {
            lists: BTreeMap::new(alloc),
            alloc,
        }
    }

    /// The numbers of a name.
    pub(crate) fn of(&self, name: &Guid) -> &[u32]
        ensures { result.now ≡ numbers_under self.now name.now }
    {
        match self.lists.get(name) {
            Some(numbers) => numbers.as_slice(),
            None => &[],
        }
    }

    // Puts a number after those of a name.
    fn push(&mut self, name: Guid, number: u32) -> Result<(), OutOfMemory>
        ensures { OnOk result (IsPushed self.old (Some name) number self.new) }
    {
        match self.lists.get_mut(&name) {
            Some(numbers) => push(numbers, number),
            None => {
                let mut numbers = Vec::new(self.alloc);
                push(&mut numbers, number)?;
                match self.lists.insert(name, numbers) {
                    Ok(_) => Ok(()),
                    Err(_) => Err(OutOfMemory),
                }
            }
        }
    }

    /// Adds a number to those of a name, if a name is given.
    pub(crate) fn push_under(&mut self, name: Option<Guid>, number: u32) -> Result<(), OutOfMemory>
        ensures { OnOk result (IsPushed self.old name number self.new) }
    {
        match name {
            Some(name) => self.push(name, number),
            None => Ok(()),
        }
    }
}
