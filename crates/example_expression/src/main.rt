//! An example of a program over `depex_code`: it reads the bytes of a dependency expression, and prints its text.
#![tactic(auto)]

use asm_text::print_depex;
use depex_code::{DepexFault, read_depex};
use pi_base::{OutOfMemory, Phase, Seq};
use std::alloc::Global;
use std::io::{self, Write};

// SOR, TRUE, NOT, END, as a section of type 13 has them.
const EXPRESSION: [u8; 4] = [0x09, 0x06, 0x05, 0x08];

// The text of an expression of DXE, or the offset at which there is none.
fn text_of(alloc: Global, bytes: &[u8]) -> Result<Seq<u8>, DepexFault> {
    let depex = read_depex(alloc, bytes, Phase::Dxe)?;
    match print_depex(alloc, &depex) {
        Ok(text) => Ok(text),
        Err(OutOfMemory) => Err(DepexFault::Memory),
    }
}

fn main(rt: HostRuntime) -> io::Result<()> {
    for bytes in [EXPRESSION.as_slice(), &[0x03, 0x08]] {
        match text_of(rt.alloc(), bytes) {
            Ok(text) => io::writer(&rt).write_all(text.as_slice())?,
            Err(DepexFault::Malformed(at)) => println!(rt; "malformed at {at}")?,
            Err(DepexFault::Memory) => println!(rt; "memory was wanting")?,
        }
    }
    Ok(())
}
