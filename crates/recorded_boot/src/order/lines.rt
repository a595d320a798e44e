// The lines of an order.
ghost use Rattle.std.specs.Prelude.{◌-◌, ◌<◌, ◌^◌, length, IfOk, IfErr};
ghost use Rattle.recorded_boot.specs.OrderText.{IsOrder, IsOrderFault, TakesLine};

use crate::order::fault::OrderFault;
use crate::order::line::{Asked, AskedStart, asked_of};
use line_words::{first_line, is_passed_over};
use pi_base::Seq;
use std::alloc::Global;

/// An order of starts.
#[derive(Drop)]
pub struct StartOrder {
    /// The starts, the first one first.
    pub starts: Seq<AskedStart>,
    /// The number, from 1, of the last line, if that is `stop`.
    pub stop: Option<u32>,
}

// Takes a line with its number.
fn take_line(order: &mut StartOrder, number: u32, line: &[u8]) -> Result<(), OrderFault>
    ensures { TakesLine order.old number line.now result order.new }
{
    if is_passed_over(line) {
        return Ok(());
    }
    if order.stop.is_some() {
        return Err(OrderFault::Bad { line: number });
    }
    match asked_of(number, line) {
        Some(Asked::Start(start)) => order.starts.push(start)?,
        Some(Asked::Stop(at)) => order.stop = Some(at),
        None => return Err(OrderFault::Bad { line: number }),
    }
    Ok(())
}

/// Reads the text of an order, of fewer than 2^32 - 1 bytes. Lines that are empty or begin with `#` are skipped. Each other line is `pei V GUID` or `dxe V
/// GUID`, or `stop`, after which no other line follows. V is the volume's number below 2^32, decimal or hexadecimal, and GUID the file's name in either letter
/// case.
pub fn read_order(alloc: Global, text: &[u8]) -> Result<StartOrder, OrderFault>
    requires { length text.now < 2 ^ 32 - 1 }
    ensures order { IfOk result (IsOrder text.now) }
    ensures fault { IfErr result (IsOrderFault text.now) }
{
    let mut order = StartOrder {
        starts: Seq::new(alloc),
        stop: None,
    };
    let mut rest = text;
    let mut number = 1u32;
    'lines: while !rest.is_empty() {
        let (line, after) = first_line(rest);
        take_line(&mut order, number, line)?;
        number += 1;
        rest = after;
    }
    Ok(order)
}
