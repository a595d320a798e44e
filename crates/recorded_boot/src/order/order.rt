//! The order of the starts among printed lines.
ghost use Rattle.std.specs.Prelude.{◌≡◌, ◌++◌, ◌<◌, ◌-◌, ◌^◌, IfOk, OnOk, length};
ghost use Rattle.recorded_boot.specs.Order.{asked_in};
ghost use Rattle.recorded_boot.specs.Order as O;

use crate::order::printed_start::start_of;
use crate::order::{AskedStart, StartOrder};
use boot_model::Line;
use pi_base::{OutOfMemory, Seq};
use std::alloc::Global;

// Notes the start that a line is, with the line's number.
fn note(starts: &mut Seq<AskedStart>, number: u32, line: &Line) -> Result<(), OutOfMemory>
    ensures { OnOk result (starts.new ≡ starts.old ++ asked_in (number, line.now)) }
{
    match start_of(line) {
        Some(start) => starts.push(AskedStart {
            line: number,
            start,
        }),
        None => Ok(()),
    }
}

/// The order of the starts among these lines, each with the number of its line, from 1. It does not stop after the last of them.
pub fn order_of(alloc: Global, lines: &[Line]) -> Result<StartOrder, OutOfMemory>
    requires { length lines.now < 2 ^ 32 - 1 }
    ensures { IfOk result (λ order. order ≡ O.order_of lines.now) }
{
    let mut starts = Seq::new(alloc);
    let mut number = 1u32;
    'lines: for line in lines {
        note(&mut starts, number, line)?;
        number += 1;
    }
    Ok(StartOrder { starts, stop: None })
}
