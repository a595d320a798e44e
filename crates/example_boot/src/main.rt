//! An example of a program over `boot_images` and `follow`. It boots the plan in its folder with its own sink, which counts the lines. Then it boots in the
//! order of starts next to the plan, and prints the lines, and the reason why the first start that fails is not possible.
#![tactic(auto)]

use boot_core::boot_images;
use boot_core::plan_files::{Job, read_file, read_job};
use boot_io::{PatientWriter, RealFiles, RealSink, Sink, SinkFault};
use pi_base::Guid;
use recorded_boot::follow::{Against, Followed, follow};
use recorded_boot::order::{StartOrder, read_order};
use std::io::{self, Write};

/// The longest order, in bytes.
const ORDER_LIMIT: usize = 0x100_0000;

/// The most starts that are followed.
const MOST_STARTS: usize = 0xFFFF_FFFF;

// A sink that counts lines and keeps none.
#[derive(Drop)]
struct LineCount {
    lines: u64,
}

impl Sink for LineCount {
    ghost use Rattle.std.specs.Prelude.{None};

    // Its text is never known, and it never fails.
    ghost text = { λ _. None };

    ghost faults = { λ _. 0 };

    fn put(&mut self, piece: &[u8]) -> Result<(), SinkFault> {
        for byte in piece {
            if *byte == b'\n' {
                self.lines = self.lines.saturating_add(1);
            }
        }
        Ok(())
    }
}

// The order in the folder.
fn order_in(rt: &HostRuntime) -> Option<StartOrder> {
    let text = read_file(rt.alloc(), "order", ORDER_LIMIT, &mut RealFiles::new(rt)).ok()?;
    if text.len() > ORDER_LIMIT {
        return None;
    }
    read_order(rt.alloc(), text.as_slice()).ok()
}

// How many lines the boot of the plan in the folder has, and its status.
fn put_count(rt: &HostRuntime) -> io::Result<()> {
    let Ok(Job { plan, images }) = read_job(rt.alloc(), "plan", &mut RealFiles::new(rt)) else {
        return println!(rt; "no plan");
    };
    let mut count = LineCount { lines: 0 };
    let booted = boot_images(rt.alloc(), &plan, images, &mut count);
    let status = booted.status as u8;
    let lines = count.lines;
    println!(rt; "{lines} lines, status {status}")
}

// A GUID, after a space.
fn put_guid(rt: &HostRuntime, guid: &Guid) -> io::Result<()> {
    io::writer(rt).write_all(b" ")?;
    io::writer(rt).write_all(guid.to_text().as_slice())
}

// Prints why the start of a line is not possible.
fn put_against(rt: &HostRuntime, line: u32, against: &Against) -> io::Result<()> {
    println!(rt; "no {line}")?;
    match against {
        Against::Unknown => println!(rt; "unknown"),
        Against::Started => println!(rt; "started"),
        Against::NotEligible(guids) => {
            io::writer(rt).write_all(b"not eligible")?;
            for guid in guids.as_slice() {
                put_guid(rt, guid)?;
            }
            println!(rt; "")
        }
    }
}

// The boot of the plan in an order of starts.
fn put_followed(rt: &HostRuntime, order: &StartOrder) -> io::Result<()> {
    if order.starts.len() > MOST_STARTS {
        return println!(rt; "no order");
    }
    let Ok(Job { plan, images }) = read_job(rt.alloc(), "plan", &mut RealFiles::new(rt)) else {
        return println!(rt; "no plan");
    };
    let Ok(mut sink) = RealSink::buffered(rt.alloc(), PatientWriter::new(io::writer(rt), rt)) else {
        return println!(rt; "no memory");
    };
    let followed = follow(rt.alloc(), &plan, images, order, &mut sink);
    let _ = sink.finish();
    match followed {
        Ok(Followed::Ended(_)) => Ok(()),
        Ok(Followed::Stopped) => println!(rt; "stop"),
        Ok(Followed::No { line, against }) => put_against(rt, line, &against),
        Err(_) => println!(rt; "no boot"),
    }
}

fn main(rt: HostRuntime) -> io::Result<()> {
    put_count(&rt)?;
    match order_in(&rt) {
        Some(order) => put_followed(&rt, &order),
        None => println!(rt; "no order"),
    }
}
