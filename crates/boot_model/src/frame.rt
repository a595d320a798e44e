//! A script that runs.
use pi_base::Word;
use store_model::{Desc, Pool, Sweep};

/// How many frames are at most.
pub const MOST_FRAMES: usize = 64;

/// How many registers a frame has.
pub const REGISTERS: usize = act_code::REGISTERS as usize;

/// How many blocks an entry counts for one module.
pub const BLOCKS: u32 = act_code::MOST_BLOCKS as u32;

/// The contents of a register.
#[derive(Clone, Copy, PartialEq, Eq)]
pub enum Register {
    Empty,
    Number(u64),
    PoolIn(Pool),
    DescriptorIn(Desc),
    /// A handle, by its number.
    HandleIn(u32),
}

/// A running script: the place of its next action, and its registers. `W` is what a call of its phase still has to visit.
#[derive(Clone, Copy)]
pub struct Frame<W> {
    /// The number of the module.
    pub module_number: u32,
    pub block: u8,
    /// The number of the next action in the block.
    pub position: u16,
    pub registers: [Register; REGISTERS],
    /// The status of its last call.
    pub last: Word,
    /// What its last call has still to visit.
    pub sweep: Option<W>,
}

/// A script of PEI.
pub type PeiFrame = Frame<Sweep>;

// What is in a place for a frame that is not used.
impl<W> Default for Frame<W> {
    fn default() -> Frame<W> {
        Frame {
            module_number: 0,
            block: 0,
            position: 0,
            registers: [Register::Empty; REGISTERS],
            last: Word::Success,
            sweep: None,
        }
    }
}
