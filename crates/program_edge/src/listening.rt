// Who reads standard error, and so what is kept of a run for a report.

use crate::kept_files::Keeping;
use std::io::IsTerminal;
use std::{env, fs};

// The links for standard input, output and error (Linux).
const INPUT: &str = "/proc/self/fd/0";

const OUTPUT: &str = "/proc/self/fd/1";

const ERROR: &str = "/proc/self/fd/2";

// What such a link says of a pipe begins so, and its number is after.
const PIPE: &str = "pipe:[";

// Whether files that are open so are between two programs: nothing is handed in, and both outputs are taken apart by pipes.
fn are_between(input: &str, output: &str, error: &str) -> bool {
    input == "/dev/null" && output.starts_with(PIPE) && error.starts_with(PIPE) && output != error
}

// Whether a program drives this one and reads its status and its text. False if the system does not say so.
fn is_driven(rt: &HostRuntime) -> Option<bool> {
    let input = fs::read_link(rt, INPUT).ok()?;
    let output = fs::read_link(rt, OUTPUT).ok()?;
    let error = fs::read_link(rt, ERROR).ok()?;
    Some(are_between(input.to_str()?, output.to_str()?, error.to_str()?))
}

/// What is kept: what words need, unless `PIBOOT_WORDS` is set to an empty text, or a program drives this one and `PIBOOT_WORDS` is not set.
pub(crate) fn keeping_for(rt: &HostRuntime) -> Keeping {
    match env::var(rt, "PIBOOT_WORDS") {
        Ok(asked) if asked.is_empty() => Keeping::Nothing,
        Ok(_) => Keeping::Words,
        Err(_) if rt.stderr().is_terminal() => Keeping::Words,
        Err(_) if is_driven(rt) == Some(true) => Keeping::Nothing,
        Err(_) => Keeping::Words,
    }
}
