// What a processor does in a job.

/// An operation of a job (own). It represents what a procedure that is handed to the MP services does to memory.
#[derive(Clone, Copy)]
pub enum Op {
    /// Adds to a shared cell, modulo 2^64.
    Add {
        /// The cell's index.
        cell: u32,
        /// What is added.
        n: u64,
    },
    /// Appends a number to the record of the processor that does it.
    Put {
        /// The number.
        n: u64,
    },
}
