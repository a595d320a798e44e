//! What registers hold, and what an action writes into them.
ghost use Rattle.std.specs.Prelude.{◌≡◌, slice_set};
ghost use Rattle.boot_model.specs.Registers as R;
ghost use Rattle.phase_parts.specs.Writes.{written};

use boot_model::{REGISTERS, Register};
use store_model::{Desc, Pool};

/// A register that an action writes, and its new contents. A register that does not exist is not written.
#[derive(Clone, Copy, PartialEq, Eq)]
pub struct Write {
    pub r: u8,
    pub register: Register,
}

/// The registers that an action writes, in order.
#[derive(Clone, Copy, PartialEq, Eq)]
pub enum Writes {
    Nothing,
    One(Write),
    Two(Write, Write),
}

impl Writes {
    /// One register is written.
    pub fn one(r: u8, register: Register) -> Writes
        ensures { result ≡ Writes.One (record { r = r; register = register }) }
    {
        Writes::One(Write { r, register })
    }
}

/// The number in a register. None if it holds none.
pub fn number_in(registers: &[Register; REGISTERS], r: u8) -> Option<u64>
    ensures { result ≡ R.number_in registers.now r }
{
    match registers.get(r as usize) {
        Some(Register::Number(n)) => Some(*n),
        _ => None,
    }
}

/// The pool in a register. None if it holds none.
pub fn pool_in(registers: &[Register; REGISTERS], r: u8) -> Option<Pool>
    ensures { result ≡ R.pool_in registers.now r }
{
    match registers.get(r as usize) {
        Some(Register::PoolIn(pool)) => Some(*pool),
        _ => None,
    }
}

/// The descriptor in a register. None if it holds none.
pub fn descriptor_in(registers: &[Register; REGISTERS], r: u8) -> Option<Desc>
    ensures { result ≡ R.descriptor_in registers.now r }
{
    match registers.get(r as usize) {
        Some(Register::DescriptorIn(descriptor)) => Some(*descriptor),
        _ => None,
    }
}

/// The handle in a register. None if it holds none.
pub fn handle_in(registers: &[Register; REGISTERS], r: u8) -> Option<u32>
    ensures { result ≡ R.handle_in registers.now r }
{
    match registers.get(r as usize) {
        Some(Register::HandleIn(handle)) => Some(*handle),
        _ => None,
    }
}

/// The offset, from the heap's base, of the body of a register's pool or descriptor. None if it holds neither.
pub fn offset_in(registers: &[Register; REGISTERS], r: u8) -> Option<u64>
    ensures { result ≡ R.offset_of (R.register registers.now r) }
{
    match registers.get(r as usize) {
        Some(Register::PoolIn(pool)) => Some(pool.offset),
        Some(Register::DescriptorIn(descriptor)) => Some(descriptor.offset),
        _ => None,
    }
}

// Writes a register, if it exists.
fn write_one(registers: &mut [Register; REGISTERS], write: Write)
    ensures { registers.new ≡ slice_set registers.old write.r write.register }
{
    if (write.r as usize) < REGISTERS {
        registers[write.r as usize] = write.register;
    }
}

// Writes registers, in order.
pub(crate) fn write_all(registers: &mut [Register; REGISTERS], writes: &Writes)
    ensures { registers.new ≡ written registers.old writes.now }
{
    match writes {
        Writes::Nothing => {}
        Writes::One(one) => write_one(registers, *one),
        Writes::Two(one, other) => {
            write_one(registers, *one);
            write_one(registers, *other);
        }
    }
}
