// The numbers that a GUID has, found by it.
ghost use Rattle.std.specs.Prelude.{◌≡◌, ◌≤◌, [], OnOk, OnErr, length, nat_lt, slice_get};
ghost use Rattle.pi_base.specs.declared.guid.Guid.{Guid};
ghost use Rattle.guid_lists.specs.Lists.{list_of, leading, with_number, without_number, HaveStill, HasInstead, Passes, Rises};

use indexmap::IndexMap;
use pi_base::{Guid, OutOfMemory};
use std::alloc::Global;

/// For each GUID, the numbers that it has, lowest first.
#[derive(Drop)]
pub struct GuidLists {
    lists: IndexMap<Guid, Vec<u32>>,
}

/// The place of the first number that is not below this one.
fn place_of(numbers: &[u32], number: u32) -> usize
    requires { Rises numbers.now }
    ensures place { result ≡ leading (λ other. nat_lt other number) numbers.now }
    ensures within { result ≤ length numbers.now }
{
    numbers.partition_point(|other| *other < number)
}

/// Puts a number at its place. If memory runs out, the list is unchanged.
fn put(numbers: &mut Vec<u32>, number: u32) -> Result<(), OutOfMemory>
    requires { Rises numbers.old.items }
    ensures ok { OnOk result (numbers.new.items ≡ with_number number numbers.old.items) }
    ensures err { OnErr result (numbers.new.items ≡ numbers.old.items) }
{
    let at = place_of(numbers, number);
    match numbers.insert(at, number) {
        Ok(()) => Ok(()),
        Err(_) => Err(OutOfMemory),
    }
}

/// Takes a number out, if it is there.
fn take(numbers: &mut Vec<u32>, number: u32)
    requires { Rises numbers.old.items }
    ensures { numbers.new.items ≡ without_number number numbers.old.items }
{
    let at = place_of(numbers, number);
    if at < numbers.len() && numbers[at] == number {
        numbers.remove(at);
    }
}

impl GuidLists {
    /// Lists in which no GUID has a number. It allocates nothing.
    pub fn new(alloc: Global) -> GuidLists
        ensures { (guid : Guid) → list_of result guid ≡ [] }
    {
        GuidLists {
            lists: IndexMap::new(alloc),
        }
    }

    /// The numbers of a GUID, lowest first.
    pub fn of(&self, guid: &Guid) -> &[u32]
        ensures { result.now ≡ list_of self.now guid.now }
    {
        match self.lists.get(guid) {
            Some(numbers) => numbers.as_slice(),
            None => &[],
        }
    }

    /// The n-th number of a GUID, counted from 0. None if it has fewer.
    pub fn nth(&self, guid: &Guid, n: usize) -> Option<u32>
        ensures { result ≡ slice_get (list_of self.now guid.now) n }
    {
        self.of(guid).get(n).copied()
    }

    /// The lowest number of a GUID that is `from` or higher.
    pub fn next(&self, guid: &Guid, from: u32) -> Option<u32>
        requires { Rises (list_of self.now guid.now) }
        ensures { result ≡ slice_get (list_of self.now guid.now) (leading (λ number. nat_lt number from) (list_of self.now guid.now)) }
    {
        let numbers = self.of(guid);
        numbers.get(place_of(numbers, from)).copied()
    }

    /// Adds a number to a GUID. If memory runs out, the numbers are unchanged.
    pub fn add(&mut self, guid: Guid, number: u32) -> Result<(), OutOfMemory>
        requires { Rises (list_of self.old guid) }
        ensures ok { OnOk result (HasInstead self.old guid (with_number number (list_of self.old guid)) self.new) }
        ensures err { OnErr result (HaveStill self.old self.new) }
    {
        match self.lists.get_mut(&guid) {
            Some(numbers) => put(numbers, number),
            None => {
                let mut numbers = Vec::new(*self.lists.allocator());
                put(&mut numbers, number)?;
                match self.lists.insert(guid, numbers) {
                    Ok(_) => Ok(()),
                    Err(_) => Err(OutOfMemory),
                }
            }
        }
    }

    /// Removes a number from a GUID.
    pub fn remove(&mut self, guid: &Guid, number: u32)
        requires { Rises (list_of self.old guid.now) }
        ensures { HasInstead self.old guid.now (without_number number (list_of self.old guid.now)) self.new }
    {
        if let Some(numbers) = self.lists.get_mut(guid) {
            take(numbers, number);
        }
    }

    /// Moves a number from one GUID to another. If memory runs out, it stays where it was.
    pub fn pass(&mut self, number: u32, from: &Guid, to: Guid) -> Result<(), OutOfMemory>
        requires from { Rises (list_of self.old from.now) }
        requires to { Rises (list_of self.old to) }
        ensures ok { OnOk result (Passes self.old number from.now to self.new) }
        ensures err { OnErr result (HaveStill self.old self.new) }
    {
        if *from == to {
            return Ok(());
        }
        self.add(to, number)?;
        self.remove(from, number);
        Ok(())
    }
}
