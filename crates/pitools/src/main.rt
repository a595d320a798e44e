//! The program of the tools. It hands its words to `tools_and_print` of `tools_core`, which carries the promise, and reports to a person on standard error.
//! Begin with `main`.
#![tactic(auto)]

mod cause_meaning;
mod forms;
mod line_forms;
mod meaning;
mod order_meaning;
mod source_meaning;

use crate::forms::PROGRAM;
use crate::meaning::{shown_file, tell};
use boot_io::{PatientWriter, RealFiles};
use program_edge::{Call, Heard, Keeping, KeptFiles, KeptText};
use std::io;
use std::process::ExitCode;
use tools_core::{ToolStatus, tools_and_print};

// Does what the words ask for, over the machine's files and standard output, and reports the outcome on standard error.
fn run(rt: &HostRuntime, call: &Call) -> ToolStatus {
    let alloc = rt.alloc();
    let words = call.words();
    let mut files = KeptFiles::new(alloc, RealFiles::new(rt), call.keeping());
    let to = KeptText::new(
        alloc,
        PatientWriter::new(io::writer(rt), rt),
        call.keeping(),
    );
    let (output, status) = tools_and_print(alloc, words, &mut files, to);
    if call.keeping() != Keeping::Nothing {
        if let Some(name) = shown_file(words, status) {
            files.read_again(rt, name);
        }
        tell(rt, words, status, &Heard::new(files, output, None));
    }
    status
}

fn main(rt: HostRuntime) -> ExitCode {
    // This fails only if memory runs out.
    let Ok(call) = Call::of(&rt) else {
        return ExitCode::from(ToolStatus::Memory.number());
    };
    let status = run(&rt, &call);
    if let Some(asked) = call.asked() {
        PROGRAM.answer(&rt, asked);
    }
    ExitCode::from(status.number())
}
